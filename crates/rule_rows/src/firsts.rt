//! The earlier of two places.

ghost use Rattle.rule_rows.specs.Firsts.{IsEarlier};

use lam_geom::Point;

/// The earlier of two places by y, then x, if there is one.
pub(crate) fn earlier(a: Option<Point>, b: Option<Point>) -> Option<Point>
    ensures { IsEarlier a b result }
{
    match (a, b) {
        (None, other) => other,
        (other, None) => other,
        (Some(p), Some(q)) => {
            if q.y < p.y || q.y == p.y && q.x < p.x {
                Some(q)
            } else {
                Some(p)
            }
        }
    }
}
