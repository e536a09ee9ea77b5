//! Spacing.

ghost use Rattle.std.specs.Prelude.{◌≡◌, ◌≤◌, ℤ, All, IfOk, true};
ghost use Rattle.lam_geom.specs.Moves.{IsNearRect};
ghost use Rattle.lam_geom.specs.Rules.{IsTight};
ghost use Rattle.lam_geom.specs.Squares.{covered};
ghost use Rattle.rule_edges.specs.Edges.{AreSpaced};

use crate::along::Along;
use crate::apart::are_apart;
use crate::facing::Facing;
use crate::grid::is_on_grid;
use lam_geom::{Layer, Rect};
use mp_base::NoMemory;
use std::alloc::Global;

/// Whether the edges of rectangles show that no gap of the layer, along a row or a column, is shorter than `size`
/// half-units: all lie on the lambda grid, and none of them face each other so.
pub fn edges_keep_spacing(
    alloc: Global,
    shapes: &[Rect],
    layer: Layer,
    size: u32,
) -> Result<bool, NoMemory>
    requires { All IsNearRect shapes.now }
    ensures { IfOk result (λ kept. kept ≡ true → (x y : ℤ) → ¬ IsTight (covered shapes.now layer) size x y) }
{
    if size > 1500 || !is_on_grid(shapes, layer) {
        return Ok(false);
    }
    if !are_spaced(alloc, shapes, layer, size, Along::Rows)? {
        return Ok(false);
    }
    are_spaced(alloc, shapes, layer, size, Along::Columns)
}

// Whether no rectangles of the layer are one lambda apart, nor two if the size is more than that.
fn are_spaced(
    alloc: Global,
    shapes: &[Rect],
    layer: Layer,
    size: u32,
    along: Along,
) -> Result<bool, NoMemory>
    requires { All IsNearRect shapes.now }
    ensures { IfOk result (λ kept. kept ≡ true → AreSpaced layer size along shapes.now) }
{
    let near = Facing {
        from: layer,
        to: layer,
        gap: 500,
        along,
    };
    if !are_apart(alloc, shapes, near)? {
        return Ok(false);
    }
    if size <= 1000 {
        return Ok(true);
    }
    are_apart(alloc, shapes, Facing { gap: 1000, ..near })
}
