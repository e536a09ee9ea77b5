//! Polysilicon near diffusion that it has no part in.

ghost use Rattle.std.specs.Prelude.{◌≡◌, All, IfOk};
ghost use Rattle.lam_geom.specs.Squares.{covered};
ghost use Rattle.lam_geom.specs.Moves.{IsNearRect};
ghost use Rattle.lam_geom.specs.Rules.{IsUnrelated};
ghost use Rattle.rule_rows.specs.Copies.{IsBounded};
ghost use Rattle.rule_rows.specs.Firsts.{IsFirstOf};
ghost use Rattle.rule_rows.specs.Nears.{field_on, IsAloneIn, IsOnlyDiffusion, IsPlanOf};

use crate::channels::first_channel;
use crate::copies::spread;
use crate::firsts::earlier;
use crate::leads::leading;
use crate::side::{Reach, Side};
use crate::stretches::turned;
use lam_geom::{Layer, Point, Rect};
use mp_base::{List, NoMemory};
use rule_edges::edges_keep_unrelated;
use std::alloc::Global;

/// The least square by y, then x, of polysilicon alone from which diffusion alone is nearer than a lambda.
pub fn first_unrelated(alloc: Global, shapes: &[Rect]) -> Result<Option<Point>, NoMemory>
    requires near { All IsNearRect shapes.now }
    ensures { IfOk result (IsFirstOf (IsUnrelated (covered shapes.now))) }
{
    if edges_keep_unrelated(alloc, shapes)? {
        return Ok(None);
    }
    let rows = planned(alloc, shapes)?;
    let across = leading(alloc, rows.as_slice())?;
    let in_rows = first_alone(alloc, across, shapes)?;
    let columns = turned(alloc, rows.as_slice())?;
    let found = leading(alloc, columns.as_slice())?;
    let along = turned(alloc, found.as_slice())?;
    let in_columns = first_alone(alloc, along, shapes)?;
    Ok(earlier(in_rows, in_columns))
}

// The least square of polysilicon alone that the other drawing covers.
fn first_alone(alloc: Global, led: List<Rect>, shapes: &[Rect]) -> Result<Option<Point>, NoMemory>
    requires bounded { All IsBounded shapes.now }
    requires only { IsOnlyDiffusion led }
    ensures { IfOk result (IsFirstOf (IsAloneIn shapes.now led)) }
{
    let mut drawing = led;
    let here = Reach {
        side: Side::Right,
        near: 0,
        far: 0,
    };
    spread(&mut drawing, shapes, Layer::NP, Layer::NP, here)?;
    spread(&mut drawing, shapes, Layer::ND, Layer::NB, here)?;
    first_channel(alloc, drawing.as_slice())
}

// A field of channels with the drawing's polysilicon as buried contacts and its diffusion as implant.
fn planned(alloc: Global, shapes: &[Rect]) -> Result<List<Rect>, NoMemory>
    requires near { All IsNearRect shapes.now }
    ensures { IfOk result (IsPlanOf shapes.now) }
{
    let mut plan = List::new(alloc);
    plan.push(field(Layer::ND))?;
    plan.push(field(Layer::NP))?;
    let here = Reach {
        side: Side::Right,
        near: 0,
        far: 0,
    };
    spread(&mut plan, shapes, Layer::NP, Layer::NB, here)?;
    spread(&mut plan, shapes, Layer::ND, Layer::NI, here)?;
    Ok(plan)
}

// The field goes to 2^42 half-units from the origin.
fn field(layer: Layer) -> Rect
    ensures { result ≡ field_on layer }
{
    Rect {
        layer,
        x0: -4_398_046_511_104,
        y0: -4_398_046_511_104,
        x1: 4_398_046_511_104,
        y1: 4_398_046_511_104,
    }
}
