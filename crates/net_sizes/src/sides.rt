//! Sides and areas of rectangles.

ghost use Rattle.std.specs.Prelude.{◌≡◌, ◌<◌, ◌^◌};
ghost use Rattle.std.specs.Int.{int_gap, int_max, int_min};
ghost use Rattle.net_sizes.specs.Sides.{area, common, shared_edge};

use lam_geom::Rect;

// How far the second is above the first.
fn gap(low: i64, high: i64) -> u64
    ensures { result ≡ int_gap low high }
{
    if low < high { high.abs_diff(low) } else { 0 }
}

fn higher(a: i64, b: i64) -> i64
    ensures { result ≡ int_max a b }
{
    if b < a { a } else { b }
}

fn lower(a: i64, b: i64) -> i64
    ensures { result ≡ int_min a b }
{
    if b < a { b } else { a }
}

// The part that two stretches have in common.
fn common(a: i64, b: i64, c: i64, d: i64) -> u64
    ensures { result ≡ common a b c d }
{
    gap(higher(a, c), lower(b, d))
}

/// How many squares a rectangle has.
pub fn area(r: &Rect) -> u128
    ensures { result ≡ area r.now }
{
    gap(r.x0, r.x1) as u128 * gap(r.y0, r.y1) as u128
}

/// The edge that two rectangles share which have no square in common.
pub fn shared_edge(r: &Rect, q: &Rect) -> u128
    ensures { result ≡ shared_edge r.now q.now }
{
    common(r.x0, r.x1, q.x0, q.x1) as u128 + common(r.y0, r.y1, q.y0, q.y1) as u128
}
