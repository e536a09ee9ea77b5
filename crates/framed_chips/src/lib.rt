//! Chips whose labels are moved from the corners of nets to pads: laws.
#![tactic(auto)]

pub mod laws;
