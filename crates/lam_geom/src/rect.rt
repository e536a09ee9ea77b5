//! Rectangles.

ghost use Rattle.std.specs.Prelude.{◌≡◌, ◌↔◌, IsTrue};
ghost use Rattle.lam_geom.specs.Squares.{Touch};
ghost use Rattle.lam_geom.specs.Spans.{Overlap, Meet};
ghost use Rattle.lam_geom.specs.Moves.{quarter_turn, mirrored, turned, shifted, IsNear, IsNearRect};

use crate::layer::Layer;
use crate::place::Orient;
use mp_base::List;

/// A rectangle of one layer, in half-units. It covers the squares with `x0 <= x < x1` and `y0 <= y < y1`, each named
/// by its lower left corner.
#[derive(Clone, Copy, PartialEq, Eq, Debug)]
pub struct Rect {
    pub layer: Layer,
    pub x0: i64,
    pub y0: i64,
    pub x1: i64,
    pub y1: i64,
}

/// A drawing: it covers what any of its rectangles covers.
pub type Shape = List<Rect>;

impl Rect {
    /// The rectangle turned about the origin, and then moved by (dx, dy).
    pub fn moved(self, orient: Orient, dx: i64, dy: i64) -> Rect
        requires rect { IsNearRect self }
        requires dx { IsNear dx }
        requires dy { IsNear dy }
        ensures { result ≡ shifted dx dy (turned orient self) }
    {
        self.turned(orient).shifted(dx, dy)
    }

    fn turned(self, orient: Orient) -> Rect
        requires { IsNearRect self }
        ensures value { result ≡ turned orient self }
        ensures near { IsNearRect result }
    {
        match orient {
            Orient::R0 => self,
            Orient::R1 => self.quarter(),
            Orient::R2 => self.quarter().quarter(),
            Orient::R3 => self.quarter().quarter().quarter(),
            Orient::M0 => self.mirrored(),
            Orient::M1 => self.mirrored().quarter(),
            Orient::M2 => self.mirrored().quarter().quarter(),
            Orient::M3 => self.mirrored().quarter().quarter().quarter(),
        }
    }

    /// A quarter turn against the clock.
    #[tactic(auto, unfolding(crate::specs::Moves::quarter_turn))]
    fn quarter(self) -> Rect
        requires { IsNearRect self }
        ensures value { result ≡ quarter_turn self }
        ensures near { IsNearRect result }
    {
        Rect {
            layer: self.layer,
            x0: -self.y1,
            y0: self.x0,
            x1: -self.y0,
            y1: self.x1,
        }
    }

    /// x is negated.
    #[tactic(auto, unfolding(crate::specs::Moves::mirrored))]
    fn mirrored(self) -> Rect
        requires { IsNearRect self }
        ensures value { result ≡ mirrored self }
        ensures near { IsNearRect result }
    {
        Rect {
            layer: self.layer,
            x0: -self.x1,
            y0: self.y0,
            x1: -self.x0,
            y1: self.y1,
        }
    }

    #[tactic(auto, unfolding(crate::specs::Moves::shifted))]
    fn shifted(self, dx: i64, dy: i64) -> Rect
        requires rect { IsNearRect self }
        requires dx { IsNear dx }
        requires dy { IsNear dy }
        ensures { result ≡ shifted dx dy self }
    {
        Rect {
            layer: self.layer,
            x0: self.x0 + dx,
            y0: self.y0 + dy,
            x1: self.x1 + dx,
            y1: self.y1 + dy,
        }
    }

    /// Whether the two cover a common square or squares with a common edge, on whatever layers they are. A rectangle
    /// that covers nothing touches nothing.
    pub fn touches(&self, other: &Rect) -> bool
        ensures { IsTrue result ↔ Touch self.now other.now }
    {
        if self.columns_overlap(other) {
            self.rows_overlap(other) || self.rows_meet(other)
        } else {
            self.rows_overlap(other) && self.columns_meet(other)
        }
    }

    fn columns_overlap(&self, other: &Rect) -> bool
        ensures { IsTrue result ↔ Overlap self.now.x0 self.now.x1 other.now.x0 other.now.x1 }
    {
        self.x0 < self.x1 && other.x0 < other.x1 && self.x0 < other.x1 && other.x0 < self.x1
    }

    fn rows_overlap(&self, other: &Rect) -> bool
        ensures { IsTrue result ↔ Overlap self.now.y0 self.now.y1 other.now.y0 other.now.y1 }
    {
        self.y0 < self.y1 && other.y0 < other.y1 && self.y0 < other.y1 && other.y0 < self.y1
    }

    fn columns_meet(&self, other: &Rect) -> bool
        ensures { IsTrue result ↔ Meet self.now.x0 self.now.x1 other.now.x0 other.now.x1 }
    {
        self.x0 < self.x1 && other.x0 < other.x1 && (self.x1 == other.x0 || other.x1 == self.x0)
    }

    fn rows_meet(&self, other: &Rect) -> bool
        ensures { IsTrue result ↔ Meet self.now.y0 self.now.y1 other.now.y0 other.now.y1 }
    {
        self.y0 < self.y1 && other.y0 < other.y1 && (self.y1 == other.y0 || other.y1 == self.y0)
    }
}

#[cfg(test)]
mod tests {
    use super::*;

    const SQUARE: Rect = Rect {
        layer: Layer::ND,
        x0: 0,
        y0: 0,
        x1: 1,
        y1: 1,
    };

    const BAR: Rect = Rect {
        layer: Layer::NM,
        x0: 1,
        y0: 2,
        x1: 5,
        y1: 3,
    };

    fn at(x0: i64, y0: i64, x1: i64, y1: i64) -> Rect {
        Rect {
            layer: Layer::NM,
            x0,
            y0,
            x1,
            y1,
        }
    }

    #[test]
    fn touches_a_square_or_an_edge(rt: HostRuntime) {
        let cases = [
            (at(0, 0, 1, 1), true),
            (at(-5, -5, 5, 5), true),
            (at(1, 0, 2, 1), true),
            (at(-1, 0, 0, 1), true),
            (at(0, 1, 1, 2), true),
            (at(0, -1, 1, 0), true),
            (at(1, 1, 2, 2), false),
            (at(-1, -1, 0, 0), false),
            (at(2, 0, 3, 1), false),
            (at(0, 2, 1, 3), false),
            (at(0, 0, 0, 1), false),
            (at(1, 0, 1, 1), false),
            (at(1, 1, 0, 0), false),
        ];
        for (other, touches) in cases {
            assert_eq!(rt; SQUARE.touches(&other), touches);
            assert_eq!(rt; other.touches(&SQUARE), touches);
        }
    }

    #[test]
    fn moves_after_turning(rt: HostRuntime) {
        let cases = [
            (Orient::R0, at(11, 22, 15, 23)),
            (Orient::R1, at(7, 21, 8, 25)),
            (Orient::R2, at(5, 17, 9, 18)),
            (Orient::R3, at(12, 15, 13, 19)),
            (Orient::M0, at(5, 22, 9, 23)),
            (Orient::M1, at(7, 15, 8, 19)),
            (Orient::M2, at(11, 17, 15, 18)),
            (Orient::M3, at(12, 21, 13, 25)),
        ];
        for (orient, moved) in cases {
            assert_eq!(rt; BAR.moved(orient, 10, 20), moved);
        }
    }
}
