//! Drawings whose squares tell of neighbours in another drawing.

ghost use Rattle.std.specs.Prelude.{◌≡◌, ◌≤◌, All, OnOk};
ghost use Rattle.lam_geom.specs.Squares.{covered};
ghost use Rattle.rule_rows.specs.Copies.{spread_of, IsBounded, AreSpread};

use crate::side::{Reach, Side};
use lam_geom::{Layer, Rect};
use mp_base::{List, NoMemory};

/// Draws on the layer `to` the squares that have one of the layer `from` within reach.
pub(crate) fn spread(
    drawing: &mut List<Rect>,
    shapes: &[Rect],
    from: Layer,
    to: Layer,
    reach: Reach,
) -> Result<(), NoMemory>
    requires bounded { All IsBounded shapes.now }
    requires ordered { reach.near ≤ reach.far }
    requires short { reach.far ≤ 2000 }
    ensures { OnOk result (AreSpread (covered shapes.now from) to reach drawing.old drawing.new) }
{
    for shape in shapes {
        if shape.layer == from && shape.x0 < shape.x1 && shape.y0 < shape.y1 {
            drawing.push(around(shape, to, reach))?;
        }
    }
    Ok(())
}

// The squares that have one of the rectangle's within reach.
fn around(shape: &Rect, to: Layer, reach: Reach) -> Rect
    requires bounded { IsBounded shape.now }
    requires near { reach.near ≤ 2000 }
    requires far { reach.far ≤ 2000 }
    ensures { result ≡ spread_of reach.side to reach.near reach.far shape.now }
{
    let near = i64::from(reach.near);
    let far = i64::from(reach.far);
    match reach.side {
        Side::Right => Rect {
            layer: to,
            x0: shape.x0 - far,
            y0: shape.y0,
            x1: shape.x1 - near,
            y1: shape.y1,
        },
        Side::Left => Rect {
            layer: to,
            x0: shape.x0 + near,
            y0: shape.y0,
            x1: shape.x1 + far,
            y1: shape.y1,
        },
        Side::Above => Rect {
            layer: to,
            x0: shape.x0,
            y0: shape.y0 - far,
            x1: shape.x1,
            y1: shape.y1 - near,
        },
        Side::Below => Rect {
            layer: to,
            x0: shape.x0,
            y0: shape.y0 + near,
            x1: shape.x1,
            y1: shape.y1 + far,
        },
    }
}
