//! The circuit of a chip along a stimulus, with its size at the end.
#![tactic(auto)]

mod counts;
pub mod laws;
mod replay;

pub use counts::write_last_line;
pub use replay::Replay;
