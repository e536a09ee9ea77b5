//! Networks as subcircuits for SPICE.
#![tactic(auto)]

mod channels;
mod nodes;
mod pins;
mod text;
mod writing;

pub use writing::deck;
