//! Polysilicon beside diffusion.

ghost use Rattle.std.specs.Prelude.{◌≡◌, ℤ, All, IfOk, true};
ghost use Rattle.lam_geom.specs.Moves.{IsNearRect};
ghost use Rattle.lam_geom.specs.Rules.{IsUnrelated};
ghost use Rattle.lam_geom.specs.Squares.{covered};
ghost use Rattle.rule_edges.specs.Edges.{AreParted};

use crate::along::Along;
use crate::apart::are_apart;
use crate::facing::Facing;
use crate::grid::is_on_grid;
use lam_geom::{Layer, Rect};
use mp_base::NoMemory;
use std::alloc::Global;

/// Whether the edges of rectangles show that no polysilicon alone is nearer than a lambda to diffusion alone: all lie
/// on the lambda grid, and nowhere one layer ends where the other begins.
pub fn edges_keep_unrelated(alloc: Global, shapes: &[Rect]) -> Result<bool, NoMemory>
    requires { All IsNearRect shapes.now }
    ensures { IfOk result (λ kept. kept ≡ true → (x y : ℤ) → ¬ IsUnrelated (covered shapes.now) x y) }
{
    if !is_on_grid(shapes, Layer::ND) || !is_on_grid(shapes, Layer::NP) {
        return Ok(false);
    }
    if !are_parted(alloc, shapes, Along::Rows)? {
        return Ok(false);
    }
    are_parted(alloc, shapes, Along::Columns)
}

// Whether neither layer ends where the other begins.
fn are_parted(alloc: Global, shapes: &[Rect], along: Along) -> Result<bool, NoMemory>
    requires { All IsNearRect shapes.now }
    ensures { IfOk result (λ kept. kept ≡ true → AreParted along shapes.now) }
{
    let polysilicon_first = Facing {
        from: Layer::NP,
        to: Layer::ND,
        gap: 0,
        along,
    };
    if !are_apart(alloc, shapes, polysilicon_first)? {
        return Ok(false);
    }
    let diffusion_first = Facing {
        from: Layer::ND,
        to: Layer::NP,
        gap: 0,
        along,
    };
    are_apart(alloc, shapes, diffusion_first)
}
