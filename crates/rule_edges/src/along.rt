//! Rows and columns.

ghost use Rattle.std.specs.Prelude.{◌≡◌};
ghost use Rattle.rule_edges.specs.Edges.{laid};

use lam_geom::Rect;

/// The direction in which rectangles face each other.
#[derive(Clone, Copy)]
pub(crate) enum Along {
    Rows,
    Columns,
}

/// The rectangle with that direction along the rows.
pub(crate) fn laid(shape: &Rect, along: Along) -> Rect
    ensures { result ≡ laid along shape.now }
{
    match along {
        Along::Rows => *shape,
        Along::Columns => Rect {
            layer: shape.layer,
            x0: shape.y0,
            y0: shape.x0,
            x1: shape.y1,
            y1: shape.x1,
        },
    }
}
