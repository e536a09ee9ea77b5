//! Bands of one height, one above the other.

ghost use Rattle.std.specs.Prelude.{◌≡◌, ◌<◌, MatchOption};
ghost use Rattle.lam_geom.specs.Moves.{IsNear, IsNearRect};
ghost use Rattle.slice_symbols.specs.Heights.{AreUsable, IsShift, StandsIn, height_of, raised};
ghost use Rattle.slice_symbols.specs.Standing.{StandsInNone};

use lam_geom::Rect;

/// So many bands of one height, one above the other, in half-units.
#[derive(Clone, Copy)]
pub struct Bands {
    /// The lowest edge of the first.
    pub low: i64,
    pub height: u32,
    pub count: u32,
}

impl Bands {
    /// How far the band with that number lies above the first.
    pub(crate) fn height_of(self, band: u32) -> i64
        requires { band < 64 }
        ensures value { result ≡ height_of self band }
        ensures near { IsNear result }
    {
        (u64::from(band) * u64::from(self.height)) as i64
    }

    /// The band in which a rectangle stands, if there is one.
    pub(crate) fn band_of(self, rect: &Rect) -> Option<u32>
        requires usable { AreUsable self }
        requires near { IsNearRect rect.now }
        ensures { MatchOption result (StandsInNone self rect.now) (λ band. (band < self.count)
            × StandsIn self band rect.now) }
    {
        let bottom = rect.y0 - self.low;
        let top = rect.y1 - self.low;
        if bottom < 0 {
            return None;
        }
        let height = u64::from(self.height);
        let band = bottom as u64 / height;
        if band < u64::from(self.count) && top <= ((band + 1) * height) as i64 {
            Some(band as u32)
        } else {
            None
        }
    }
}

/// The rectangle, so much lower.
pub(crate) fn lowered(rect: &Rect, height: i64) -> Rect
    requires near { IsNearRect rect.now }
    requires height { IsNear height }
    ensures back { raised height result ≡ rect.now }
    ensures bottom { IsShift result.y0 }
    ensures top { IsShift result.y1 }
{
    Rect {
        layer: rect.layer,
        x0: rect.x0,
        y0: rect.y0 - height,
        x1: rect.x1,
        y1: rect.y1 - height,
    }
}

/// The rectangle, so much higher.
pub(crate) fn lifted(rect: &Rect, height: i64) -> Rect
    requires bottom { IsShift rect.now.y0 }
    requires top { IsShift rect.now.y1 }
    requires height { IsNear height }
    ensures { result ≡ raised height rect.now }
{
    Rect {
        layer: rect.layer,
        x0: rect.x0,
        y0: rect.y0 + height,
        x1: rect.x1,
        y1: rect.y1 + height,
    }
}
