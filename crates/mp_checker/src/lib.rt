//! Checked programs.
#![tactic(auto)]

mod checked;
mod groups;
mod judge;
mod pads;

pub use checked::{Checked, check, weight};
