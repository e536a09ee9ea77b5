//! The program and the stimulus of a number, ready to run.
#![tactic(auto)]

mod ready;

pub use ready::{Ready, make_ready};
