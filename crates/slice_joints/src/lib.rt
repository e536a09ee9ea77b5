//! What joins the bands of a data path: the band of its control with the taps of casts and lifts, the lines that go
//! through the bands of slices, and their marks there.
#![tactic(auto)]

pub mod control;
pub mod joints;
pub mod laws;
pub mod taps;
