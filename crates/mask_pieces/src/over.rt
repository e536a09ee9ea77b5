//! Which piece conducts at a place.

ghost use Rattle.std.specs.Prelude.{◌≡◌, ◌<◌, length, map, All, IfOk};
ghost use Rattle.std.specs.Option.{ForSome};
ghost use Rattle.mask_pieces.specs.Pieces.{over};

use crate::piece::Piece;
use mp_base::{List, NoMemory};
use std::alloc::Global;

/// For each place the number of the piece that conducts there, from the tile that was found.
pub(crate) fn pieces_over(
    alloc: Global,
    found: &[Option<u32>],
    numbers: &[u32],
    pieces: &[Piece],
) -> Result<List<Option<u32>>, NoMemory>
    requires tiles { All (λ o. ForSome o (λ n. n < length numbers.now)) found.now }
    requires pieces { All (λ k. k < length pieces.now) numbers.now }
    ensures { IfOk result (λ v. v ≡ map (over numbers.now pieces.now) found.now) }
{
    let mut pieces_there = List::from_vec(Vec::with_capacity(alloc, found.len())?);
    for tile in found {
        pieces_there.push(piece_over(*tile, numbers, pieces))?;
    }
    Ok(pieces_there)
}

// The piece of a tile, if it conducts.
fn piece_over(tile: Option<u32>, numbers: &[u32], pieces: &[Piece]) -> Option<u32>
    requires tiles { ForSome tile (λ n. n < length numbers.now) }
    requires pieces { All (λ k. k < length pieces.now) numbers.now }
    ensures { result ≡ over numbers.now pieces.now tile }
{
    let number = numbers[tile? as usize];
    if pieces[number as usize].part.conducts() {
        Some(number)
    } else {
        None
    }
}
