//! Guesses, of which nothing is proved and which others check: what the nets of a data path become in one with fewer
//! nets.
#![tactic(auto)]

mod circuit;
mod drafting;
mod fixed;
mod guess;
mod lists;
mod merging;
mod search;
mod table;

pub use guess::{Guess, guess_images};
