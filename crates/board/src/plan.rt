//! Plans of a run: the links, and the swaps of parts.

use crate::link::Link;
use mp_base::List;

/// A swap: before a clock, this part takes the place of the part of a link. The link is told by its place among the
/// links, and the part by its place in the list of parts.
#[derive(Clone, Copy)]
pub struct Swap {
    pub clock: u32,
    pub link: u32,
    pub fresh: u32,
}

/// The links of a run, and its swaps in their order.
#[derive(Drop)]
pub struct Plan {
    pub links: List<Link>,
    pub swaps: List<Swap>,
}

/// What a swap word names: a clock, the part of a link, and the part that takes its place.
#[derive(Clone, Copy)]
pub(crate) struct SwapNaming {
    pub clock: Option<u32>,
    pub old: Option<u32>,
    pub fresh: Option<u32>,
}
