//! Rectangles by the bands in which they stand.

ghost use Rattle.std.specs.Prelude.{◌≡◌, ◌<◌, All, IfOk, length};
ghost use Rattle.std.specs.Bool.{MatchBool};
ghost use Rattle.lam_geom.specs.Moves.{IsNearRect};
ghost use Rattle.slice_symbols.specs.Heights.{AreUsable};
ghost use Rattle.slice_symbols.specs.Ordered.{EachOnce};
ghost use Rattle.slice_symbols.specs.Standing.{AreAlike, AreStood, IsOfBand, own, standing_cmp};

use crate::bands::{Bands, lifted, lowered};
use crate::order::compare;
use lam_geom::{Rect, Shape};
use mp_base::{List, NoMemory};
use std::alloc::Global;
use std::cmp::Ordering;

/// A rectangle as it would stand in the first band, and the band in which it stands.
#[derive(Clone, Copy)]
pub(crate) struct Standing {
    pub first: Rect,
    pub band: u32,
}

impl Standing {
    /// The rectangle itself.
    pub(crate) fn own(&self, bands: Bands) -> Rect
        requires usable { AreUsable bands }
        requires of_band { IsOfBand bands self.now }
        ensures { result ≡ own bands self.now }
    {
        lifted(&self.first, bands.height_of(self.band))
    }

    // The order of two: by the rectangle in the first band, and then by band.
    fn compare(&self, other: &Standing) -> Ordering
        ensures { result ≡ standing_cmp self.now other.now }
    {
        compare(&self.first, &other.first).then(self.band.cmp(&other.band))
    }
}

/// The rectangles that stand in bands, and the rest.
pub(crate) fn stand(
    alloc: Global,
    rects: &[Rect],
    bands: Bands,
) -> Result<(List<Standing>, Shape), NoMemory>
    requires usable { AreUsable bands }
    requires near { All IsNearRect rects.now }
    ensures { IfOk result (λ parts. AreStood rects.now bands parts.0 parts.1) }
{
    let mut standing = List::new(alloc);
    let mut rest = List::new(alloc);
    for rect in rects {
        let Some(band) = bands.band_of(rect) else {
            rest.push(*rect)?;
            continue;
        };
        let first = lowered(rect, bands.height_of(band));
        standing.push(Standing { first, band })?;
    }
    Ok((standing, rest))
}

/// The same in an order in which those that are alike stand beside one another, from band to band, each once.
pub(crate) fn in_order(standing: List<Standing>) -> List<Standing>
    ensures { EachOnce standing_cmp standing result }
{
    let mut standing = standing.into_vec();
    standing.sort_unstable_by(|s, t| s.compare(t));
    standing.dedup_by(|s, t| s.compare(t).is_eq());
    List::from_vec(standing)
}

/// Whether from this place on those of all bands are as the first of them.
pub(crate) fn are_alike(standing: &[Standing], at: usize, count: u32, first: Rect) -> bool
    requires { at < length standing.now }
    ensures { MatchBool result (AreAlike standing.now at count first) (¬ AreAlike standing.now at count first) }
{
    for band in 0..count {
        let wanted = Standing { first, band };
        match standing.get(at + band as usize) {
            Some(s) if s.compare(&wanted).is_eq() => {}
            _ => return false,
        }
    }
    true
}
