//! Parts that a chip may be joined to.
#![tactic(auto)]

mod memory;
mod numbers;

pub use memory::Memory;
pub use numbers::{Counter, Echo, Shifter};
