//! Bits of guarded transfers as NOR gates and latches.
#![tactic(auto)]

mod first;
mod lower;
mod names;
mod storing;
mod tasks;

pub use lower::lower_bits;
pub use names::Names;
