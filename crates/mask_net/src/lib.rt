//! The network of switches that a CIF file draws, and its size.
#![tactic(auto)]

mod file;
pub mod laws;
mod size;

pub use file::{drawing_of, drawn_network, network_of};
pub use size::{size_line, size_text};
