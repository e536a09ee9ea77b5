//! The fabric of a data path: its control in band 0, a slice in each band above, and the lines that join them.
#![tactic(auto)]

mod laying;
mod taps;
mod unders;

pub use laying::{Laid, lay};
