//! The outside: files and outputs, by what they hold, and the loops that read and write whole texts.
#![tactic(auto)]

mod calls;
mod transfer;

pub use calls::{Depot, Failed, Sink};
pub use transfer::{Fault, ReadError, append_all, read_file, store, write_all};
