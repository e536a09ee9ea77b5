//! Chips.

ghost use Rattle.fabric.specs.Even.{IsEven};

use crate::fabric::Fabric;
use lam_geom::{Layer, Shape};
use mp_base::{List, Name};

/// A label of a chip: a name for the square of the layer whose lower left corner is at (x, y) in half-units. Both
/// numbers are even.
#[derive(Drop)]
pub struct ChipLabel {
    pub name: Name,
    pub x: i64,
    pub y: i64,
    pub layer: Layer,
    ghost even_x: { IsEven x },
    ghost even_y: { IsEven y },
}

/// A chip: what its fabric draws, the rectangles beside the fabric, in half-units, and its labels.
#[derive(Drop)]
pub struct Chip {
    pub fabric: Fabric,
    pub extra: Shape,
    pub labels: List<ChipLabel>,
}
