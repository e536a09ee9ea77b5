//! The masks of contacts and conductors.

use mask_tiles::Swept;

/// What the sweeps of the masks find. On metal and diffusion the first squares of contacts and some places are asked
/// for; on polysilicon these, and then the first squares of the tiles of diffusion.
#[derive(Drop)]
pub struct Masks {
    pub contacts: Swept,
    pub metal: Swept,
    pub polysilicon: Swept,
    pub diffusion: Swept,
}
