//! Laws of chips: rectangles that draw the net of a data path follow the transfers that the path shows.
#![tactic(auto)]

pub mod laws;
