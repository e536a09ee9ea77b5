//! Laws of chips on a board.
#![tactic(auto)]

pub mod laws;
