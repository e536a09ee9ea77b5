//! Running a program, clock by clock.
#![tactic(auto)]

mod fit;
mod machine;

pub use machine::Machine;
