//! The weight of a program.
#![tactic(auto)]

mod calls;
mod capped;
mod defs;
mod exprs;
mod weight;

pub use weight::weight_within;
