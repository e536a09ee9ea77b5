//! Widths.

ghost use Rattle.std.specs.Prelude.{◌≡◌, ◌↔◌, ◌<◌, ◌+ℤ◌, ◌≤ℤ◌, [], ◌∷◌, All, IfOk, pos, true};
ghost use Rattle.lam_geom.specs.Moves.{IsNearRect};
ghost use Rattle.lam_geom.specs.Squares.{covered};
ghost use Rattle.lam_geom.specs.Rules.{IsNarrow};
ghost use Rattle.rule_tiles.specs.First.{IsFirst};
ghost use Rattle.rule_tiles.specs.Areas.{field, held, IsAreaOf, IsWide};

use crate::area::{difference, first_square, of_layer};
use lam_geom::{Layer, Point, Rect};
use mp_base::{List, NoMemory};
use std::alloc::Global;

/// The first square of the layer that no wholly covered block of this side has.
pub fn first_narrow(
    alloc: Global,
    shapes: &[Rect],
    layer: Layer,
    size: u16,
) -> Result<Option<Point>, NoMemory>
    requires near { All IsNearRect shapes.now }
    requires some { 0 < size }
    ensures { IfOk result (IsFirst (IsNarrow (covered shapes.now layer) size)) }
{
    let own = of_layer(alloc, shapes, layer)?;
    if are_wide(own.as_slice(), size) {
        return Ok(None);
    }
    let narrow = narrow(alloc, own.as_slice(), size)?;
    Ok(first_square(narrow.as_slice()))
}

// Whether each rectangle holds a block of this side about each of its squares.
fn are_wide(area: &[Rect], size: u16) -> bool
    ensures { result ≡ true → All (IsWide size) area.now }
{
    area.iter().all(|rect| is_wide(rect, size))
}

fn is_wide(rect: &Rect, size: u16) -> bool
    ensures { (result ≡ true) ↔ IsWide size rect.now }
{
    is_wide_side(rect.x0, rect.x1, size) && is_wide_side(rect.y0, rect.y1, size)
}

fn is_wide_side(from: i64, to: i64, size: u16) -> bool
    ensures { (result ≡ true) ↔ ((from +ℤ pos size) ≤ℤ to) }
{
    let end = i128::from(from) + i128::from(size);
    end <= i128::from(to)
}

// The squares of the area that no block of this side inside it has.
fn narrow(alloc: Global, area: &[Rect], size: u16) -> Result<List<Rect>, NoMemory>
    requires near { All IsNearRect area.now }
    requires some { 0 < size }
    ensures { IfOk result (IsAreaOf (IsNarrow (held area.now) size)) }
{
    let near = near_field(alloc)?;
    let far = far_field(alloc)?;
    let holes = difference(alloc, far.as_slice(), area, 0, 0)?;
    // where the lower left squares of blocks inside the area are
    let corners = difference(alloc, near.as_slice(), holes.as_slice(), size - 1, 0)?;
    difference(alloc, area, corners.as_slice(), 0, size - 1)
}

// The field to 2^41 half-units from the origin, which has what is near.
fn near_field(alloc: Global) -> Result<List<Rect>, NoMemory>
    ensures { IfOk result (λ v. v ≡ field (pos 2_199_023_255_552) ∷ []) }
{
    let mut near = List::new(alloc);
    near.push(Rect {
        layer: Layer::ND,
        x0: -2_199_023_255_552,
        y0: -2_199_023_255_552,
        x1: 2_199_023_255_552,
        y1: 2_199_023_255_552,
    })?;
    Ok(near)
}

// The field to 2^42 half-units, which has the blocks at squares of the near one.
fn far_field(alloc: Global) -> Result<List<Rect>, NoMemory>
    ensures { IfOk result (λ v. v ≡ field (pos 4_398_046_511_104) ∷ []) }
{
    let mut far = List::new(alloc);
    far.push(Rect {
        layer: Layer::ND,
        x0: -4_398_046_511_104,
        y0: -4_398_046_511_104,
        x1: 4_398_046_511_104,
        y1: 4_398_046_511_104,
    })?;
    Ok(far)
}
