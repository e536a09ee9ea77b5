//! Blocks around contact cuts that lie in single tiles.

ghost use Rattle.std.specs.Prelude.{◌≡◌, ◌+ℤ◌, ◌≤ℤ◌, IfOk, false, length, pos, true};
ghost use Rattle.lam_geom.specs.Squares.{covered};
ghost use Rattle.rule_tiles.specs.Backed.{AreAllHeld, AreBacked, AreSwept, Holds, HoldsBlock, IsHeld};

use lam_geom::{Layer, Point, Rect};
use mask_runs::Mask;
use mask_tiles::Swept;
use mp_base::NoMemory;
use region_sweep::{Tile, sweep};
use std::alloc::Global;

// The tiles of the conductors.
#[derive(Drop)]
struct Conductors {
    metal: Swept,
    polysilicon: Swept,
    diffusion: Swept,
}

/// Whether each cut that isn't odd shows to be backed: its block lies in one tile of metal, and in one of polysilicon
/// or of diffusion.
pub(crate) fn are_backed(
    alloc: Global,
    shapes: &[Rect],
    corners: &[Point],
    odd: &[bool],
) -> Result<bool, NoMemory>
    requires { length odd.now ≡ length corners.now }
    ensures { IfOk result (λ backed. backed ≡ true → AreBacked (covered shapes.now) corners.now odd.now) }
{
    let tiles = tiles_of(alloc, shapes, corners)?;
    Ok(are_all_held(&tiles, corners, odd))
}

fn tiles_of(alloc: Global, shapes: &[Rect], corners: &[Point]) -> Result<Conductors, NoMemory>
    ensures { IfOk result (λ c. AreSwept shapes.now c) }
{
    let metal = sweep(alloc, shapes, Mask::Only(Layer::NM), corners)?;
    let polysilicon = sweep(alloc, shapes, Mask::Only(Layer::NP), corners)?;
    let diffusion = sweep(alloc, shapes, Mask::Only(Layer::ND), corners)?;
    Ok(Conductors {
        metal,
        polysilicon,
        diffusion,
    })
}

fn are_all_held(tiles: &Conductors, corners: &[Point], odd: &[bool]) -> bool
    requires { length odd.now ≡ length corners.now }
    ensures { result ≡ true → AreAllHeld tiles.now corners.now odd.now (length corners.now) }
{
    for index in 0..corners.len() {
        if !is_settled(odd[index], tiles, index, &corners[index]) {
            return false;
        }
    }
    true
}

fn is_settled(odd: bool, tiles: &Conductors, index: usize, corner: &Point) -> bool
    ensures { result ≡ true → odd ≡ false → IsHeld tiles.now corner.now }
{
    odd || is_held(tiles, index, corner)
}

fn is_held(tiles: &Conductors, index: usize, corner: &Point) -> bool
    ensures { result ≡ true → IsHeld tiles.now corner.now }
{
    holds(&tiles.metal, index, corner)
        && (holds(&tiles.polysilicon, index, corner) || holds(&tiles.diffusion, index, corner))
}

// Whether the tile that was found for the corner of this number holds the block from there.
fn holds(swept: &Swept, index: usize, corner: &Point) -> bool
    ensures { result ≡ true → Holds swept.now.tiles corner.now }
{
    match swept.found.as_slice().get(index) {
        Some(Some(number)) => holds_by(swept.tiles.as_slice(), *number, corner),
        _ => false,
    }
}

fn holds_by(tiles: &[Tile], number: u32, corner: &Point) -> bool
    ensures { result ≡ true → Holds tiles.now corner.now }
{
    match tiles.get(number as usize) {
        Some(tile) => holds_block(tile, corner),
        None => false,
    }
}

fn holds_block(tile: &Tile, corner: &Point) -> bool
    ensures { result ≡ true → HoldsBlock tile.now corner.now }
{
    holds_across(tile, corner) && holds_along(tile, corner)
}

fn holds_across(tile: &Tile, corner: &Point) -> bool
    ensures { result ≡ true → (tile.now.x0 ≤ℤ corner.now.x) × ((corner.now.x +ℤ pos 2000) ≤ℤ tile.now.x1) }
{
    tile.x0 <= corner.x && i128::from(corner.x) + 2000 <= i128::from(tile.x1)
}

fn holds_along(tile: &Tile, corner: &Point) -> bool
    ensures { result ≡ true → (tile.now.y0 ≤ℤ corner.now.y) × ((corner.now.y +ℤ pos 2000) ≤ℤ tile.now.y1) }
{
    tile.y0 <= corner.y && i128::from(corner.y) + 2000 <= i128::from(tile.y1)
}
