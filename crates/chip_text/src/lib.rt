//! From a checked program to the text of its chip.
#![tactic(auto)]

mod chip;
mod limits;
mod text;

pub use chip::chip_text;
pub use limits::TEXT_LIMIT;
