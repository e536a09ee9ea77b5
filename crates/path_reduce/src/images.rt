//! What the nets of a data path become.

use mp_base::List;
use nor_net::NetId;

/// What a net becomes: a net of its own band of the reduced path, always 0, always 1, or nothing, where it is left out.
#[derive(Clone, Copy, PartialEq, Eq, Debug)]
pub enum Becomes {
    Net(NetId),
    Low,
    High,
    LeftOut,
}

/// What each net of the control becomes, and each net of a slice, in all slices the same.
#[derive(Drop)]
pub struct Images {
    pub control: List<Becomes>,
    pub slices: List<Becomes>,
}
