//! Rules E20 to E45: what a program breaks, and what it breaks first.
#![tactic(auto)]

mod earliest;
pub mod laws;
mod limits;

pub use earliest::{earlier, earlier_of};
pub use limits::{DEPTH_LIMIT, EXPR_LIMIT, FORM_LIMIT, NAMING_LIMIT, PROCESS_LIMIT};
