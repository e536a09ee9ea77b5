//! Gaps that are too short.

ghost use Rattle.std.specs.Prelude.{◌<◌, ◌≤◌, All, IfOk};
ghost use Rattle.lam_geom.specs.Squares.{covered};
ghost use Rattle.lam_geom.specs.Moves.{IsNearRect};
ghost use Rattle.lam_geom.specs.Rules.{IsTight};
ghost use Rattle.rule_rows.specs.Copies.{IsBounded};
ghost use Rattle.rule_rows.specs.Firsts.{IsFirstOf};
ghost use Rattle.rule_rows.specs.Gaps.{BeginsGap};
ghost use Rattle.rule_rows.specs.Sides.{way_of};

use crate::channels::first_channel;
use crate::copies::spread;
use crate::firsts::earlier;
use crate::side::{Reach, Side};
use lam_geom::{Layer, Point, Rect};
use mp_base::{List, NoMemory};
use rule_edges::edges_keep_spacing;
use std::alloc::Global;

/// The least square by y, then x, that lies in a gap of the layer, along its row or its column, shorter than `size`
/// half-units.
pub fn first_tight(
    alloc: Global,
    shapes: &[Rect],
    layer: Layer,
    size: u32,
) -> Result<Option<Point>, NoMemory>
    requires near { All IsNearRect shapes.now }
    requires some { 0 < size }
    requires small { size ≤ 2000 }
    ensures { IfOk result (IsFirstOf (IsTight (covered shapes.now layer) size)) }
{
    if edges_keep_spacing(alloc, shapes, layer, size)? {
        return Ok(None);
    }
    let across = first_gap(alloc, shapes, layer, size, Side::Right)?;
    let up = first_gap(alloc, shapes, layer, size, Side::Above)?;
    Ok(earlier(across, up))
}

// The least square with which a gap begins toward the side.
fn first_gap(
    alloc: Global,
    shapes: &[Rect],
    layer: Layer,
    size: u32,
    side: Side,
) -> Result<Option<Point>, NoMemory>
    requires bounded { All IsBounded shapes.now }
    requires some { 0 < size }
    requires small { size ≤ 2000 }
    ensures { IfOk result (IsFirstOf (BeginsGap (covered shapes.now layer) (way_of side) size)) }
{
    let mut drawing = List::new(alloc);
    let behind = Reach {
        side: side.opposite(),
        near: 1,
        far: 1,
    };
    let ahead = Reach {
        side,
        near: 0,
        far: size - 1,
    };
    let here = Reach {
        side,
        near: 0,
        far: 0,
    };
    spread(&mut drawing, shapes, layer, Layer::ND, behind)?;
    spread(&mut drawing, shapes, layer, Layer::NP, ahead)?;
    spread(&mut drawing, shapes, layer, Layer::NB, here)?;
    first_channel(alloc, drawing.as_slice())
}
