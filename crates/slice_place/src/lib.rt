//! The slices of a data path in the bands of a fabric above that of the control, and the lines that join them.
#![tactic(auto)]

mod nets;
mod placing;

pub use placing::{PlacedSlices, SliceSize, measure_slices, place_slices};
