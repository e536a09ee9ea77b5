//! The one net of a data path.

use mp_base::List;
use nor_net::{Net, NetId};

/// A net, with the nets of the bits of each pad, bit 0 first.
#[derive(Drop)]
pub struct Flattened {
    pub net: Net,
    pub inputs: List<List<NetId>>,
    pub outputs: List<List<NetId>>,
}
