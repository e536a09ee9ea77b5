//! Gates that are open at an end.

ghost use Rattle.std.specs.Prelude.{All, IfOk};
ghost use Rattle.lam_geom.specs.Squares.{covered};
ghost use Rattle.lam_geom.specs.Moves.{IsNearRect};
ghost use Rattle.lam_geom.specs.Rules.{IsOpenGate};
ghost use Rattle.rule_rows.specs.Copies.{IsBounded};
ghost use Rattle.rule_rows.specs.Firsts.{IsFirstOf};
ghost use Rattle.rule_rows.specs.Gates.{IsOpenToward};
ghost use Rattle.rule_rows.specs.Sides.{way_of};

use crate::channels::first_channel;
use crate::closed::are_closed;
use crate::copies::spread;
use crate::firsts::earlier;
use crate::side::{Reach, Side};
use crate::stretches::beside_long;
use lam_geom::{Layer, Point, Rect};
use mp_base::NoMemory;
use std::alloc::Global;

/// The least square by y, then x, of a channel beside which neither diffusion goes on nor polysilicon alone for two
/// lambda.
pub fn first_open_gate(alloc: Global, shapes: &[Rect]) -> Result<Option<Point>, NoMemory>
    requires near { All IsNearRect shapes.now }
    ensures { IfOk result (IsFirstOf (IsOpenGate (covered shapes.now))) }
{
    if are_closed(alloc, shapes)? {
        return Ok(None);
    }
    let right = first_open(alloc, shapes, Side::Right)?;
    let left = first_open(alloc, shapes, Side::Left)?;
    let up = first_open(alloc, shapes, Side::Above)?;
    let down = first_open(alloc, shapes, Side::Below)?;
    Ok(earlier(earlier(right, left), earlier(up, down)))
}

// The least square of a channel that is open toward the side.
fn first_open(alloc: Global, shapes: &[Rect], side: Side) -> Result<Option<Point>, NoMemory>
    requires bounded { All IsBounded shapes.now }
    ensures { IfOk result (IsFirstOf (IsOpenToward (covered shapes.now) (way_of side))) }
{
    let mut drawing = beside_long(alloc, shapes, side)?;
    let here = Reach {
        side,
        near: 0,
        far: 0,
    };
    let beside = Reach {
        side,
        near: 1,
        far: 1,
    };
    spread(&mut drawing, shapes, Layer::ND, Layer::ND, here)?;
    spread(&mut drawing, shapes, Layer::NP, Layer::NP, here)?;
    spread(&mut drawing, shapes, Layer::NB, Layer::NB, here)?;
    spread(&mut drawing, shapes, Layer::ND, Layer::NB, beside)?;
    first_channel(alloc, drawing.as_slice())
}
