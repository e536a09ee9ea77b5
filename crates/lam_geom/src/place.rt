//! Points and orientations.

/// A point of the plane.
#[derive(Clone, Copy, PartialEq, Eq, Debug)]
pub struct Point {
    pub x: i64,
    pub y: i64,
}

/// One of the eight ways to lay down a drawing. `R` with k turns it by k quarter turns against the clock; `M` with k
/// negates x first, and then turns it so.
#[derive(Clone, Copy, PartialEq, Eq, Debug)]
pub enum Orient {
    R0,
    R1,
    R2,
    R3,
    M0,
    M1,
    M2,
    M3,
}
