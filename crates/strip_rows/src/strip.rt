//! Strips of cells, and pairs of them.

use union_find::Pair;

/// The cells from column `left` up to `right` in the rows from `low` up to `high`, of one colour above 0; `right` and
/// `high` are outside.
#[derive(Clone, Copy, PartialEq, Eq, Debug)]
pub struct Strip {
    pub left: u32,
    pub right: u32,
    pub low: u32,
    pub high: u32,
    pub colour: u8,
}

/// Strips in the order of their lower left cells, lower rows first, and the numbers of each two that touch, once.
#[derive(Drop)]
pub struct Strips {
    pub strips: Vec<Strip>,
    pub pairs: Vec<Pair>,
}
