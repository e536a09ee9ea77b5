//! The plan of a data path's chip: its fabric in bit slices, with a label for each supply, phase and bit of a pad, and
//! how large it is.
#![tactic(auto)]

mod chips;
pub mod laws;
mod planning;

pub use planning::{Planned, planned_of};
