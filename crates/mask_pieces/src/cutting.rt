//! Pieces of tiles.

ghost use Rattle.std.specs.Prelude.{AllPairs, IfOk};
ghost use Rattle.mask_tiles.specs.Tiles.{Before};
ghost use Rattle.mask_pieces.specs.Pieces.{AreTilePieces, AreCutUp};

use crate::merging::merge;
use crate::piece::Piece;
use lam_geom::Layer;
use mask_tiles::Tile;
use mp_base::{List, NoMemory};
use std::alloc::Global;

/// The pieces of these tiles, in their order.
pub(crate) fn pieces_of(
    alloc: Global,
    layer: Layer,
    tiles: &[Tile],
) -> Result<List<Piece>, NoMemory>
    ensures { IfOk result (λ v. AreTilePieces layer tiles.now v) }
{
    let mut pieces = List::from_vec(Vec::with_capacity(alloc, tiles.len())?);
    for (i, tile) in tiles.iter().enumerate() {
        let Ok(number) = u32::try_from(i) else {
            return Err(NoMemory);
        };
        pieces.push(Piece::of_tile(layer, number, tile))?;
    }
    Ok(pieces)
}

/// The pieces of these tiles of metal, polysilicon and diffusion, in order.
pub(crate) fn cut_up(
    alloc: Global,
    metal: &[Tile],
    polysilicon: &[Tile],
    diffusion: &[Tile],
) -> Result<List<Piece>, NoMemory>
    requires metal { AllPairs Before metal.now }
    requires polysilicon { AllPairs Before polysilicon.now }
    requires diffusion { AllPairs Before diffusion.now }
    ensures { IfOk result (λ v. AreCutUp metal.now polysilicon.now diffusion.now v) }
{
    let upper = pieces_of(alloc, Layer::NM, metal)?;
    let middle = pieces_of(alloc, Layer::NP, polysilicon)?;
    let lower = pieces_of(alloc, Layer::ND, diffusion)?;
    let both = merge(alloc, upper.as_slice(), middle.as_slice())?;
    merge(alloc, both.as_slice(), lower.as_slice())
}
