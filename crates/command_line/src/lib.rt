//! The words of the program, read by clap.
#![tactic(auto)]

mod app;
mod command;
mod matched;
mod number;

pub use command::{CLOCK_LIMIT, Command, command_of};
