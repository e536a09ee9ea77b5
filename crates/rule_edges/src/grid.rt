//! The lambda grid.

ghost use Rattle.std.specs.Prelude.{◌≡◌, ◌&&◌, All, true};
ghost use Rattle.lam_geom.specs.Moves.{IsNear, IsNearRect};
ghost use Rattle.rule_edges.specs.Edges.{is_step, is_on_grid, FitsIn};

use crate::offset::offset;
use lam_geom::{Layer, Rect};

// A lambda, in half-units.
const LAMBDA: u64 = 500;

/// Whether all edges of the layer lie on the grid.
pub(crate) fn is_on_grid(shapes: &[Rect], layer: Layer) -> bool
    requires { All IsNearRect shapes.now }
    ensures { result ≡ true → All (FitsIn layer) shapes.now }
{
    for shape in shapes {
        if !fits(shape, layer) {
            return false;
        }
    }
    true
}

// Whether the rectangle does, if it is of the layer.
fn fits(shape: &Rect, layer: Layer) -> bool
    requires { IsNearRect shape.now }
    ensures { result ≡ true → FitsIn layer shape.now }
{
    shape.layer != layer || is_rect_on_grid(shape)
}

fn is_rect_on_grid(shape: &Rect) -> bool
    requires { IsNearRect shape.now }
    ensures { result ≡ is_on_grid shape.now }
{
    are_steps(shape.x0, shape.x1) && are_steps(shape.y0, shape.y1)
}

fn are_steps(low: i64, high: i64) -> bool
    requires low { IsNear low }
    requires high { IsNear high }
    ensures { result ≡ (is_step low && is_step high) }
{
    is_step(low) && is_step(high)
}

fn is_step(coordinate: i64) -> bool
    requires { IsNear coordinate }
    ensures { result ≡ is_step coordinate }
{
    offset(coordinate) % LAMBDA == 0
}
