//! The size of a program's chip, as text.
#![tactic(auto)]

pub mod laws;
mod stats;
mod text;

pub use stats::stats_text;
