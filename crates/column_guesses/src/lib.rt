//! Guesses, of which nothing is proved and which others check: in which turns the columns of a data path want few rows.
#![tactic(auto)]

mod band;
mod greedy;
mod guess;
mod lists;
mod pulls;
mod sifting;
mod standing;

pub use guess::{Guess, guess_turns};
