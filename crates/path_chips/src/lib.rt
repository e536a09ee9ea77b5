//! Laws of the chips of data paths: masks that draw a path follow the transfers that the path shows.
#![tactic(auto)]

pub mod laws;
