//! Sources that are made of numbers: their programs.
#![tactic(auto)]

pub mod laws;
