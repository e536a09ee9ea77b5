//! The verdict of the lambda rules on masks.
#![tactic(auto)]

mod command;
mod line;

pub use command::rules;
