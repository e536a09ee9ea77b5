//! A program and inputs made of a number: the masks, and what is told of their run.
#![tactic(auto)]

mod command;

pub use command::make;
