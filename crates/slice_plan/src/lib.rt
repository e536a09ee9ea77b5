//! From register transfers to a chip in bit slices.
#![tactic(auto)]

mod planning;

pub use planning::plan;
