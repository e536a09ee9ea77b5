//! Rectangles in cells and rows.

use lam_geom::Layer;

/// A rectangle of a layer, from cell `left` up to `right` in the rows from `low` up to `high`; `right` and `high` are
/// outside.
#[derive(Clone, Copy)]
pub(crate) struct Block {
    pub layer: Layer,
    pub left: u32,
    pub right: u32,
    pub low: u32,
    pub high: u32,
}
