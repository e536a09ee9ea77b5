//! The numbers of the pieces of tiles.

ghost use Rattle.std.specs.Prelude.{◌≡◌, ◌<◌, ◌^◌, ℕ, length, Some, IfOk, slice_get, vec_len};
ghost use Rattle.mask_pieces.specs.declared.piece.Piece.{Piece};
ghost use Rattle.mask_pieces.specs.Pieces.{AreTileNumbers};

use crate::piece::Piece;
use lam_geom::Layer;
use mp_base::NoMemory;
use std::alloc::Global;

/// For each tile of a layer the number of its piece.
pub(crate) fn tile_numbers(
    alloc: Global,
    layer: Layer,
    count: usize,
    pieces: &[Piece],
) -> Result<Vec<u32>, NoMemory>
    requires { (k : ℕ) (p : Piece) → slice_get pieces.now k ≡ Some p → p.rect.layer ≡ layer → p.tile < count }
    ensures { IfOk result (λ v. AreTileNumbers layer count pieces.now (length pieces.now) v.items) }
{
    let mut numbers = vec![in alloc; 0; count]?;
    for (i, piece) in pieces.iter().enumerate() {
        let Ok(number) = u32::try_from(i) else {
            return Err(NoMemory);
        };
        if piece.rect.layer == layer {
            numbers[piece.tile as usize] = number;
        }
    }
    Ok(numbers)
}
