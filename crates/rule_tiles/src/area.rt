//! Areas of the plane as lists of rectangles.

ghost use Rattle.std.specs.Prelude.{◌≡◌, ◌↔◌, ◌++◌, ℤ, All, AllPairs, IfOk, OnOk, map};
ghost use Rattle.lam_geom.specs.Squares.{covered};
ghost use Rattle.lam_geom.specs.Moves.{IsNearRect};
ghost use Rattle.rule_tiles.specs.First.{IsFirst};
ghost use Rattle.rule_tiles.specs.Areas.{grown, reached, held, bare_of, Keeps, KeepsBare};
ghost use Rattle.rule_tiles.specs.Areas.{IsSolid, IsBefore, IsOnField, IsAreaOf, Lacks, low_corner};

use lam_geom::{Layer, Point, Rect};
use mask_runs::Mask;
use mp_base::{List, NoMemory};
use region_sweep::{Tile, sweep};
use std::alloc::{AllocError, Global};

/// The rectangles of a layer.
pub(crate) fn of_layer(alloc: Global, shapes: &[Rect], layer: Layer) -> Result<List<Rect>, NoMemory>
    requires { All IsNearRect shapes.now }
    ensures same { IfOk result (λ own. (x y : ℤ) → held own x y ↔ covered shapes.now layer x y) }
    ensures near { IfOk result (λ own. All IsNearRect own) }
{
    let mut own = List::new(alloc);
    for shape in shapes {
        keep(&mut own, shape, layer)?;
    }
    Ok(own)
}

// Adds the rectangle if it is of the layer.
fn keep(own: &mut List<Rect>, shape: &Rect, layer: Layer) -> Result<(), AllocError>
    ensures { OnOk result (Keeps layer shape.now own.old own.new) }
{
    if shape.layer == layer {
        own.push(*shape)?;
    }
    Ok(())
}

/// What the one area has and the other, grown to the left and down and to the right and up, hasn't. Its rectangles are
/// in the order of their lower left squares.
pub(crate) fn difference(
    alloc: Global,
    from: &[Rect],
    taken: &[Rect],
    before: u16,
    after: u16,
) -> Result<List<Rect>, NoMemory>
    requires from { All IsOnField from.now }
    requires taken { All IsOnField taken.now }
    ensures { IfOk result (IsAreaOf (Lacks (held from.now) (reached before after taken.now))) }
{
    // diffusion conducts where no polysilicon is over it
    let mut shapes = List::new(alloc);
    add(&mut shapes, from, Layer::ND, 0, 0)?;
    add(&mut shapes, taken, Layer::NP, before, after)?;
    let swept = sweep(alloc, shapes.as_slice(), Mask::Diffusion, &[])?;
    bare(alloc, swept.tiles.as_slice())
}

/// Adds the area, so grown, on a layer.
pub(crate) fn add(
    shapes: &mut List<Rect>,
    area: &[Rect],
    layer: Layer,
    before: u16,
    after: u16,
) -> Result<(), NoMemory>
    requires { All IsOnField area.now }
    ensures { OnOk result (shapes.new ≡ shapes.old ++ map (grown layer before after) area.now) }
{
    for rect in area {
        shapes.push(grown(rect, layer, before, after))?;
    }
    Ok(())
}

fn grown(rect: &Rect, layer: Layer, before: u16, after: u16) -> Rect
    requires { IsOnField rect.now }
    ensures { result ≡ grown layer before after rect.now }
{
    let before = i64::from(before);
    let after = i64::from(after);
    Rect {
        layer,
        x0: rect.x0 - before,
        y0: rect.y0 - before,
        x1: rect.x1 + after,
        y1: rect.y1 + after,
    }
}

// The tiles of colour 1.
fn bare(alloc: Global, tiles: &[Tile]) -> Result<List<Rect>, NoMemory>
    ensures { IfOk result (λ area. area ≡ bare_of tiles.now) }
{
    let mut area = List::new(alloc);
    for tile in tiles {
        keep_bare(&mut area, tile)?;
    }
    Ok(area)
}

// Adds the tile if its colour is 1.
fn keep_bare(area: &mut List<Rect>, tile: &Tile) -> Result<(), AllocError>
    ensures { OnOk result (KeepsBare tile.now area.old area.new) }
{
    if tile.colour == 1 {
        area.push(Rect {
            layer: Layer::ND,
            x0: tile.x0,
            y0: tile.y0,
            x1: tile.x1,
            y1: tile.y1,
        })?;
    }
    Ok(())
}

/// The first square of an area.
pub(crate) fn first_square(area: &[Rect]) -> Option<Point>
    requires solid { All IsSolid area.now }
    requires ordered { AllPairs IsBefore area.now }
    ensures { IsFirst (held area.now) result }
{
    if area.len() == 0 {
        return None;
    }
    Some(low_corner(&area[0]))
}

fn low_corner(rect: &Rect) -> Point
    ensures { result ≡ low_corner rect.now }
{
    Point {
        x: rect.x0,
        y: rect.y0,
    }
}
