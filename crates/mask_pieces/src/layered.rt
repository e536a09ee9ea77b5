//! The tiles of a layer as pieces.

ghost use Rattle.std.specs.Prelude.{◌≡◌, ◌<◌, length, map, All, IfOk};
ghost use Rattle.std.specs.Option.{ForSome};
ghost use Rattle.mask_pieces.specs.Pieces.{AreOfTiles, AreNumbersOf, over};

use crate::over::pieces_over;
use crate::piece::Piece;
use crate::tile_numbers::tile_numbers;
use lam_geom::Layer;
use mask_tiles::Swept;
use mp_base::{List, NoMemory};
use std::alloc::Global;

/// The number of each tile's piece, and of the piece that conducts at each place.
#[derive(Drop)]
pub struct Numbered {
    pub numbers: List<u32>,
    pub over: List<Option<u32>>,
}

pub(crate) fn layered(
    alloc: Global,
    layer: Layer,
    swept: &Swept,
    pieces: &[Piece],
) -> Result<Numbered, NoMemory>
    requires of { AreOfTiles layer swept.now.tiles pieces.now }
    requires found { All (λ o. ForSome o (λ n. n < length swept.now.tiles)) swept.now.found }
    ensures numbers { IfOk result (λ l. AreNumbersOf layer swept.now.tiles pieces.now l.numbers) }
    ensures over { IfOk result (λ l. l.over ≡ map (over l.numbers pieces.now) swept.now.found) }
{
    let numbers = tile_numbers(alloc, layer, swept.tiles.len(), pieces)?;
    let over = pieces_over(alloc, swept.found.as_slice(), numbers.as_slice(), pieces)?;
    Ok(Numbered {
        numbers: List::from_vec(numbers),
        over,
    })
}
