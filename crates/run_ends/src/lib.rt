//! How runs end, for programs of cases: what words over files in memory, as lists say, print and write, also where a
//! call fails.
#![tactic(auto)]

mod ends;
mod exit;
mod list;
mod one_run;
mod runner;

pub use exit::exit_text;
pub use list::push_line;
pub use one_run::{Outcome, answer};
pub use runner::Runner;
