//! Stimulus files, and the lines of transcripts.
#![tactic(auto)]

mod fault;
mod given;
pub mod laws;
mod limits;
mod lines;
mod read;
mod reading;
mod rules;
mod transcript;

pub use given::{Given, Stimulus};
pub use limits::{CLOCK_LIMIT, PAD_LIMIT};
pub use read::read_stimulus;
pub use transcript::line;
