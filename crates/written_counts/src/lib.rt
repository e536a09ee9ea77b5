//! How much a program's expansion weighs, and how many expressions it has, counted without making it.
#![tactic(auto)]

mod capped;
mod costs;
mod counts;
mod frames;
pub mod laws;
mod tally;

pub use counts::{many_exprs, weight_within};
