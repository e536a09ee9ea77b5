//! Rectangles in order.

ghost use Rattle.std.specs.Prelude.{◌≡◌};
ghost use Rattle.lam_geom.specs.Squares.{rank};
ghost use Rattle.slice_symbols.specs.Ordered.{EachOnce, rect_cmp};

use lam_geom::{Layer, Rect, Shape};
use mp_base::List;
use std::cmp::Ordering;

// Layers by number.
fn rank(layer: Layer) -> u8
    ensures { result ≡ rank layer }
{
    match layer {
        Layer::NM => 0,
        Layer::NP => 1,
        Layer::ND => 2,
        Layer::NC => 3,
        Layer::NI => 4,
        Layer::NB => 5,
        Layer::NG => 6,
    }
}

// The layer and the sides, in the order in which they are compared.
fn place(r: &Rect) -> (u8, i64, i64, i64, i64)
    ensures { result ≡ (rank r.now.layer, r.now.x0, r.now.y0, r.now.x1, r.now.y1) }
{
    (rank(r.layer), r.x0, r.y0, r.x1, r.y1)
}

/// The order of two rectangles: by layer, and then by the left, the lower, the right and the upper side.
pub(crate) fn compare(a: &Rect, b: &Rect) -> Ordering
    ensures { result ≡ rect_cmp a.now b.now }
{
    place(a).cmp(&place(b))
}

/// The same rectangles in order, each once.
pub(crate) fn each_once(rects: Shape) -> Shape
    ensures { EachOnce rect_cmp rects result }
{
    let mut rects = rects.into_vec();
    rects.sort_unstable_by(|a, b| compare(a, b));
    rects.dedup_by(|a, b| compare(a, b).is_eq());
    List::from_vec(rects)
}
