//! What is wrong with a source and its stimulus, in words.
#![tactic(auto)]

mod brackets;
mod defects;
mod file;
mod jumps;
mod line;
mod names;
mod nest;
mod numbers;
mod report;
mod shapes;
mod sorts;
mod stimuli;
mod unused;
mod uses;
mod verdict;
mod view;
mod whole;

pub use file::File;
pub use report::{Report, lint};
