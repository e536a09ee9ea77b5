//! Long stretches of polysilicon alone.

ghost use Rattle.std.specs.Prelude.{◌≡◌, ◌↔◌, All, IfOk, IsTrue};
ghost use Rattle.lam_geom.specs.declared.layer.Layer.TheVariants.{NB};
ghost use Rattle.lam_geom.specs.Rules.Way.{right};
ghost use Rattle.lam_geom.specs.Squares.{covered};
ghost use Rattle.rule_rows.specs.Channels.{IsChannel};
ghost use Rattle.rule_rows.specs.Copies.{IsBounded};
ghost use Rattle.rule_rows.specs.Gates.{AreChannels, AreLong, IsBeside, IsPlain, IsTurned, IsWide};
ghost use Rattle.rule_rows.specs.Sides.{way_of};

use crate::copies::spread;
use crate::side::{Reach, Side};
use lam_geom::{Layer, Rect};
use mask_runs::Mask;
use mp_base::{List, NoMemory};
use region_sweep::{Tile, sweep};
use std::alloc::Global;

// Two lambda, in half-units.
const LONG: u64 = 1000;

/// Draws on the layer of buried contacts the squares whose neighbours on that side lie, along it, in polysilicon alone
/// for two lambda.
pub(crate) fn beside_long(
    alloc: Global,
    shapes: &[Rect],
    side: Side,
) -> Result<List<Rect>, NoMemory>
    requires bounded { All IsBounded shapes.now }
    ensures { IfOk result (AreLong (way_of side) (IsBeside (covered shapes.now) (way_of side))) }
{
    let alone = beside(alloc, shapes, side)?;
    match side {
        Side::Right | Side::Left => long(alloc, alone.as_slice()),
        Side::Above | Side::Below => {
            let columns = turned(alloc, alone.as_slice())?;
            let found = long(alloc, columns.as_slice())?;
            turned(alloc, found.as_slice())
        }
    }
}

// A drawing whose channels are the squares that have polysilicon alone beside them.
fn beside(alloc: Global, shapes: &[Rect], side: Side) -> Result<List<Rect>, NoMemory>
    requires bounded { All IsBounded shapes.now }
    ensures { IfOk result (λ d. AreChannels d (IsBeside (covered shapes.now) (way_of side))) }
{
    let mut drawing = List::new(alloc);
    let next = Reach {
        side,
        near: 1,
        far: 1,
    };
    spread(&mut drawing, shapes, Layer::NP, Layer::ND, next)?;
    spread(&mut drawing, shapes, Layer::NP, Layer::NP, next)?;
    spread(&mut drawing, shapes, Layer::ND, Layer::NB, next)?;
    Ok(drawing)
}

// The squares of channels that go on along the row for two lambda.
fn long(alloc: Global, drawing: &[Rect]) -> Result<List<Rect>, NoMemory>
    requires { IsPlain drawing.now }
    ensures { IfOk result (AreLong right (IsChannel drawing.now)) }
{
    let swept = sweep(alloc, drawing, Mask::Diffusion, &[])?;
    let mut rects = List::new(alloc);
    for tile in swept.tiles.as_slice() {
        if is_wide(tile) {
            rects.push(buried(tile))?;
        }
    }
    Ok(rects)
}

fn is_wide(tile: &Tile) -> bool
    ensures { IsTrue result ↔ IsWide tile.now }
{
    tile.colour > 1 && tile.x1.abs_diff(tile.x0) >= LONG
}

fn buried(tile: &Tile) -> Rect
    ensures { result ≡ record { layer = NB; x0 = tile.now.x0; y0 = tile.now.y0; x1 = tile.now.x1; y1 = tile.now.y1 } }
{
    Rect {
        layer: Layer::NB,
        x0: tile.x0,
        y0: tile.y0,
        x1: tile.x1,
        y1: tile.y1,
    }
}

/// The drawing with x and y exchanged.
pub(crate) fn turned(alloc: Global, shapes: &[Rect]) -> Result<List<Rect>, NoMemory>
    ensures { IfOk result (IsTurned shapes.now) }
{
    let mut rects = List::new(alloc);
    for shape in shapes {
        rects.push(exchanged(shape))?;
    }
    Ok(rects)
}

fn exchanged(shape: &Rect) -> Rect
    ensures { result ≡ record {
      layer = shape.now.layer;
      x0 = shape.now.y0;
      y0 = shape.now.x0;
      x1 = shape.now.y1;
      y1 = shape.now.x1;
    } }
{
    Rect {
        layer: shape.layer,
        x0: shape.y0,
        y0: shape.x0,
        x1: shape.y1,
        y1: shape.x1,
    }
}
