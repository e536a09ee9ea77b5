//! Large sources, each with a stimulus, from a number.
#![tactic(auto)]

mod draws;
mod made;
mod source;
mod stimulus;

pub use made::{Made, make};
