//! Tiles.

/// The squares with `x0 <= x < x1` and `y0 <= y < y1`, in half-units, of one colour above 0. In each row they reach as
/// far as the colour does to the left and to the right, and the rows just below and just above have no such row of
/// squares.
#[derive(Clone, Copy, PartialEq, Eq, Debug)]
pub struct Tile {
    pub x0: i64,
    pub y0: i64,
    pub x1: i64,
    pub y1: i64,
    pub colour: u8,
}
