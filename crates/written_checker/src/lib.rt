//! Programs as they are written, checked, and their expansions.
#![tactic(auto)]

mod checking;
mod groups;
mod judge;

pub use checking::check;
