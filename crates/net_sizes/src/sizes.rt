//! Sizes.

use mp_base::List;

/// The sizes of what a mask draws, each list in the order of the channels or nodes of its network: of each channel its
/// area, and the length of the edges that it shares with its ends; of each node the areas of its metal, its polysilicon
/// and its diffusion. Lengths are in half-units, areas in square half-units.
#[derive(Drop)]
pub struct Sizes {
    pub areas: List<u128>,
    pub edges: List<u128>,
    pub metal: List<u128>,
    pub polysilicon: List<u128>,
    pub diffusion: List<u128>,
}
