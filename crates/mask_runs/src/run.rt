//! Runs of one colour.

/// The cells of a row from `left` up to `right`, which is outside, of one colour above 0.
#[derive(Clone, Copy, PartialEq, Eq, Debug)]
pub struct Run {
    pub left: u32,
    pub right: u32,
    pub colour: u8,
}
