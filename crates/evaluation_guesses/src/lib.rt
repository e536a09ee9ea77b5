//! Guesses, of which nothing is proved and which others check: of an order of evaluation, and of a closed chain.
#![tactic(auto)]

mod driven;
mod graph;
mod hint;

pub use graph::Graph;
pub use hint::{Ranks, climb, guess_ranks};
