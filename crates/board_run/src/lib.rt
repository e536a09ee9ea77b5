//! The circuit of a chip on a board, with its size at the end.
#![tactic(auto)]

pub mod laws;
mod run;
mod swapped;
mod taking;

pub use run::BoardRun;
pub use swapped::Exchange;
pub use taking::{links_left, take_out};
