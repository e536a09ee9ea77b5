//! Rectangles that face each other.

use crate::along::Along;
use lam_geom::Layer;

/// Where rectangles of the layer `from` end so many half-units before some of the layer `to` begin.
#[derive(Clone, Copy)]
pub(crate) struct Facing {
    pub from: Layer,
    pub to: Layer,
    pub gap: u32,
    pub along: Along,
}
