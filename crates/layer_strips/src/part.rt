//! The rows in which a strip can touch the lowest row of another.

ghost use Rattle.std.specs.Prelude.{◌≡◌, ◌<ℤ◌};
ghost use Rattle.layer_strips.specs.Sweep.{first, last};

use lam_geom::Rect;

/// The rows of a strip itself, or the one row just above it.
#[derive(Clone, Copy)]
pub(crate) enum Part {
    Body,
    Top,
}

impl Part {
    /// The lowest of the rows.
    pub(crate) fn first(self, strip: &Rect) -> i64
        ensures { result ≡ first self strip.now }
    {
        match self {
            Part::Body => strip.y0,
            Part::Top => strip.y1,
        }
    }

    /// The highest of the rows.
    pub(crate) fn last(self, strip: &Rect) -> i64
        requires { strip.now.y0 <ℤ strip.now.y1 }
        ensures { result ≡ last self strip.now }
    {
        let (low, high) = (strip.y0, strip.y1);
        prove!(low < high);
        match self {
            Part::Body => high - 1,
            Part::Top => high,
        }
    }
}
