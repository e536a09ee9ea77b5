//! Blocks around contact cuts.

ghost use Rattle.std.specs.Prelude.{◌≡◌, ◌↔◌, ◌⊎◌, All, IfOk, IsSome, false, length, map, true};
ghost use Rattle.lam_geom.specs.Moves.{IsNearRect};
ghost use Rattle.lam_geom.specs.Squares.{covered};
ghost use Rattle.rule_tiles.specs.Backed.{AreUnset};
ghost use Rattle.rule_tiles.specs.Cuts.{IsNearTile, IsNearCorner};
ghost use Rattle.rule_tiles.specs.Cuts.{corner_of, block_of, AreFlags, AreGaps, IsBareAt, IsJoined};

use crate::area::{add, difference, of_layer};
use crate::backed::are_backed;
use lam_geom::{Layer, Point, Rect};
use mask_runs::Mask;
use mp_base::{List, NoMemory};
use region_sweep::{Tile, sweep};
use std::alloc::Global;

/// Where the blocks a lambda wider than the tiles begin.
pub(crate) fn corners(alloc: Global, tiles: &[Tile]) -> Result<List<Point>, NoMemory>
    requires { All IsNearTile tiles.now }
    ensures { IfOk result (λ v. v ≡ map corner_of tiles.now) }
{
    let mut corners = List::new(alloc);
    for tile in tiles {
        corners.push(corner(tile))?;
    }
    Ok(corners)
}

fn corner(tile: &Tile) -> Point
    requires { IsNearTile tile.now }
    ensures { result ≡ corner_of tile.now }
{
    Point {
        x: tile.x0 - 500,
        y: tile.y0 - 500,
    }
}

/// For each corner whether its cut isn't odd and its block lacks metal, or both polysilicon and diffusion.
pub(crate) fn bare_flags(
    alloc: Global,
    shapes: &[Rect],
    corners: &[Point],
    odd: &[bool],
) -> Result<List<bool>, NoMemory>
    requires near { All IsNearRect shapes.now }
    requires corners { All IsNearCorner corners.now }
    requires long { length odd.now ≡ length corners.now }
    ensures { IfOk result (AreFlags (IsBareAt (covered shapes.now) corners.now odd.now) (length corners.now)) }
{
    if are_backed(alloc, shapes, corners, odd)? {
        return unset(alloc, corners.len());
    }
    let metal = gaps(alloc, shapes, Layer::NM, corners)?;
    let polysilicon = gaps(alloc, shapes, Layer::NP, corners)?;
    let diffusion = gaps(alloc, shapes, Layer::ND, corners)?;
    joined(
        alloc,
        odd,
        metal.as_slice(),
        polysilicon.as_slice(),
        diffusion.as_slice(),
    )
}

fn unset(alloc: Global, count: usize) -> Result<List<bool>, NoMemory>
    ensures { IfOk result (AreUnset count) }
{
    let flags = vec![in alloc; false; count]?;
    Ok(List::from_vec(flags))
}

fn joined(
    alloc: Global,
    odd: &[bool],
    metal: &[Option<u32>],
    polysilicon: &[Option<u32>],
    diffusion: &[Option<u32>],
) -> Result<List<bool>, NoMemory>
    requires metal { length metal.now ≡ length odd.now }
    requires polysilicon { length polysilicon.now ≡ length odd.now }
    requires diffusion { length diffusion.now ≡ length odd.now }
    ensures { IfOk result (AreFlags (IsJoined odd.now metal.now polysilicon.now diffusion.now) (length odd.now)) }
{
    let mut bare = List::new(alloc);
    for index in 0..odd.len() {
        let is_bare = is_bare(
            odd[index],
            metal[index],
            polysilicon[index],
            diffusion[index],
        );
        bare.push(is_bare)?;
    }
    Ok(bare)
}

fn is_bare(odd: bool, metal: Option<u32>, polysilicon: Option<u32>, diffusion: Option<u32>) -> bool
    ensures { (result ≡ true)
        ↔ ((odd ≡ false) × (IsSome metal ⊎ IsSome polysilicon × IsSome diffusion)) }
{
    !odd && (metal.is_some() || polysilicon.is_some() && diffusion.is_some())
}

// For each corner whether the layer leaves out a square of its block.
fn gaps(
    alloc: Global,
    shapes: &[Rect],
    layer: Layer,
    corners: &[Point],
) -> Result<List<Option<u32>>, NoMemory>
    requires near { All IsNearRect shapes.now }
    requires corners { All IsNearCorner corners.now }
    ensures { IfOk result (AreGaps (covered shapes.now layer) 2000 corners.now) }
{
    let own = of_layer(alloc, shapes, layer)?;
    let blocks = blocks(alloc, corners)?;
    let lacks = difference(alloc, blocks.as_slice(), own.as_slice(), 0, 0)?;
    let mut open = List::new(alloc);
    add(&mut open, lacks.as_slice(), Layer::ND, 1999, 0)?;
    let swept = sweep(alloc, open.as_slice(), Mask::Only(Layer::ND), corners)?;
    Ok(swept.found)
}

fn blocks(alloc: Global, corners: &[Point]) -> Result<List<Rect>, NoMemory>
    requires { All IsNearCorner corners.now }
    ensures { IfOk result (λ v. v ≡ map (block_of 2000) corners.now) }
{
    let mut blocks = List::new(alloc);
    for corner in corners {
        blocks.push(block(corner))?;
    }
    Ok(blocks)
}

fn block(corner: &Point) -> Rect
    requires { IsNearCorner corner.now }
    ensures { result ≡ block_of 2000 corner.now }
{
    Rect {
        layer: Layer::ND,
        x0: corner.x,
        y0: corner.y,
        x1: corner.x + 2000,
        y1: corner.y + 2000,
    }
}
