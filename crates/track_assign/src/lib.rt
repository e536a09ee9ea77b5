//! Left-edge packing: intervals of columns put into rows, the fewest that will do.
#![tactic(auto)]

mod packing;
mod rows;

pub use packing::{Interval, Tracks, pack};
