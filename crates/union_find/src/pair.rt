//! Pairs.

/// Two things that are joined, by their numbers.
#[derive(Clone, Copy, PartialEq, Eq, Debug)]
pub struct Pair {
    pub a: u32,
    pub b: u32,
}
