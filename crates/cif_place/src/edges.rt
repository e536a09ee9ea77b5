//! Rectangles before they are known to be near.

ghost use Rattle.std.specs.Prelude.{◌≡◌, ◌^◌, ◌↔◌, IsTrue, IfSome, IfNone};
ghost use Rattle.std.specs.Bool.{OnTrue, OnFalse};
ghost use Rattle.lam_geom.specs.declared.layer.Layer.{Layer};
ghost use Rattle.lam_geom.specs.declared.rect.Rect.{Rect};
ghost use Rattle.lam_geom.specs.Moves.{IsNearRect, far};
ghost use Rattle.cif_form.specs.Place.{IsAround};
ghost use Rattle.cif_place.specs.Placing.{IsWithin, IsShort, IsShortPoint, IsFitRatio, AreSmall, scale_of, rect_of};
ghost use Rattle.cif_place.specs.Placing.{turned, exchanged_if};

use crate::ratio::{Ratio, twice_less, twice_more};
use lam_geom::{Layer, Point, Rect};

pub(crate) const FAR: i128 = 1_099_511_627_776;

/// The edges of a rectangle, in half-units.
#[derive(Clone, Copy, Drop)]
pub struct Edges {
    pub left: i128,
    pub bottom: i128,
    pub right: i128,
    pub top: i128,
}

/// How wide and how high a shape is, in units.
#[derive(Clone, Copy, Drop)]
pub struct Extent {
    pub across: i64,
    pub up: i64,
}

impl Extent {
    /// So wide and so high, in units.
    pub fn of(across: &i64, up: &i64) -> Extent
        ensures { result ≡ record { across = across.now; up = up.now } }
    {
        Extent {
            across: *across,
            up: *up,
        }
    }

    pub(crate) fn turned(self) -> Extent
        ensures { result ≡ turned self }
    {
        Extent {
            across: self.up,
            up: self.across,
        }
    }
}

fn is_near(edge: i128) -> bool
    ensures { IsTrue result ↔ IsWithin far edge }
{
    -FAR <= edge && edge <= FAR
}

fn narrow(edge: i128) -> i64
    requires { IsWithin far edge }
    ensures { result ≡ edge }
{
    edge as i64
}

impl Edges {
    /// The edges around the rectangle between two corners, half an extent out, scaled, or nothing where one isn't
    /// whole.
    pub(crate) fn around(ratio: Ratio, low: Point, high: Point, extent: Extent) -> Option<Edges>
        requires fit { IsFitRatio ratio }
        requires low { IsShortPoint low }
        requires high { IsShortPoint high }
        requires extent { IsShort extent.across × IsShort extent.up }
        ensures whole { IfSome result (λ e. (l : Layer)
            → IsAround (scale_of ratio) l low high extent.across extent.up (rect_of l e)) }
        ensures small { IfSome result AreSmall }
        ensures uneven { IfNone result ((l : Layer) (r : Rect)
            → ¬ IsAround (scale_of ratio) l low high extent.across extent.up r) }
    {
        let left = ratio.scaled(twice_less(low.x, extent.across))?;
        let bottom = ratio.scaled(twice_less(low.y, extent.up))?;
        let right = ratio.scaled(twice_more(high.x, extent.across))?;
        let top = ratio.scaled(twice_more(high.y, extent.up))?;
        Some(Edges {
            left,
            bottom,
            right,
            top,
        })
    }

    /// The same with x and y exchanged, or not.
    pub(crate) fn exchanged_if(self, swaps: bool) -> Edges
        ensures { result ≡ exchanged_if swaps self }
    {
        if swaps {
            Edges {
                left: self.bottom,
                bottom: self.left,
                right: self.top,
                top: self.right,
            }
        } else {
            self
        }
    }

    /// Whether each is at most 2^40 half-units from the origin.
    pub fn are_near(self) -> bool
        ensures near { OnTrue result ((l : Layer) → IsNearRect (rect_of l self)) }
        ensures far { OnFalse result ((l : Layer) → ¬ IsNearRect (rect_of l self)) }
    {
        if !is_near(self.left) {
            return false;
        }
        if !is_near(self.bottom) {
            return false;
        }
        if !is_near(self.right) {
            return false;
        }
        is_near(self.top)
    }

    /// The rectangle with these edges on a layer.
    pub fn rect(self, layer: Layer) -> Rect
        requires { IsNearRect (rect_of layer self) }
        ensures { result ≡ rect_of layer self }
    {
        Rect {
            layer,
            x0: narrow(self.left),
            y0: narrow(self.bottom),
            x1: narrow(self.right),
            y1: narrow(self.top),
        }
    }
}
