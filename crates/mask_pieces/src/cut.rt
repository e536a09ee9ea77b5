//! The masks of conductors in pieces.

ghost use Rattle.std.specs.Prelude.{IfOk};
ghost use Rattle.mask_pieces.specs.CutOf.{IsReady, IsCutOf};

use crate::cutting::cut_up;
use crate::layered::{Numbered, layered};
use crate::piece::Piece;
use lam_geom::Layer;
use mask_tiles::Swept;
use mp_base::{List, NoMemory};
use std::alloc::Global;

/// The pieces of three masks, and their numbers layer by layer.
#[derive(Drop)]
pub struct Cut {
    pub pieces: List<Piece>,
    pub metal: Numbered,
    pub polysilicon: Numbered,
    pub diffusion: Numbered,
}

/// The pieces of these three masks in the order of their first squares, with the number of each tile's piece and of the
/// piece that conducts at each place. More than 2^32 pieces count as want of memory.
pub fn cut_masks(
    alloc: Global,
    metal: &Swept,
    polysilicon: &Swept,
    diffusion: &Swept,
) -> Result<Cut, NoMemory>
    requires metal { IsReady metal.now }
    requires polysilicon { IsReady polysilicon.now }
    requires diffusion { IsReady diffusion.now }
    ensures { IfOk result (IsCutOf metal.now polysilicon.now diffusion.now) }
{
    let pieces = cut_up(
        alloc,
        metal.tiles.as_slice(),
        polysilicon.tiles.as_slice(),
        diffusion.tiles.as_slice(),
    )?;
    let all = pieces.as_slice();
    let metal = layered(alloc, Layer::NM, metal, all)?;
    let polysilicon = layered(alloc, Layer::NP, polysilicon, all)?;
    let diffusion = layered(alloc, Layer::ND, diffusion, all)?;
    Ok(Cut {
        pieces,
        metal,
        polysilicon,
        diffusion,
    })
}
