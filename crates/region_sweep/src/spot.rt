//! Places in cells and rows.

/// The cell and row of the place of a number.
#[derive(Clone, Copy)]
pub(crate) struct Spot {
    pub row: u32,
    pub cell: u32,
    pub index: usize,
}
