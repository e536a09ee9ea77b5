//! How a piece of work on files ends, and what it leaves.
#![tactic(auto)]

mod file;
mod halt;
mod line;
mod status;
mod telling;

pub use file::read_text;
pub use halt::Halt;
pub use status::Status;
pub use telling::{refuse, say};
