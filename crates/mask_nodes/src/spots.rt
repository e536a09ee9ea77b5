//! Places to ask for.

ghost use Rattle.std.specs.Prelude.{◌≡◌, ◌++◌, map, IfOk, OnOk};
ghost use Rattle.mask_pieces.specs.Columns.{corner_point};

use lam_geom::Point;
use mask_tiles::Tile;
use mp_base::{List, NoMemory};
use std::alloc::Global;

/// The first squares of some tiles, these places, and the first squares of other tiles.
pub(crate) fn spots(
    alloc: Global,
    first: &[Tile],
    places: &[Point],
    last: &[Tile],
) -> Result<List<Point>, NoMemory>
    ensures { IfOk result (λ v. v ≡ (map corner_point first.now ++ places.now) ++ map corner_point last.now) }
{
    let count = first.len() + places.len() + last.len();
    let mut spots = List::from_vec(Vec::with_capacity(alloc, count)?);
    add_corners(&mut spots, first)?;
    add_places(&mut spots, places)?;
    add_corners(&mut spots, last)?;
    Ok(spots)
}

fn add_corners(spots: &mut List<Point>, tiles: &[Tile]) -> Result<(), NoMemory>
    ensures { OnOk result (spots.new ≡ spots.old ++ map corner_point tiles.now) }
{
    for tile in tiles {
        spots.push(Point {
            x: tile.x0,
            y: tile.y0,
        })?;
    }
    Ok(())
}

fn add_places(spots: &mut List<Point>, places: &[Point]) -> Result<(), NoMemory>
    ensures { OnOk result (spots.new ≡ spots.old ++ places.now) }
{
    for place in places {
        spots.push(*place)?;
    }
    Ok(())
}
