//! A law of left-edge packing: no rows are fewer.
#![tactic(auto)]

pub mod laws;
