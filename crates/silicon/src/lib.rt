//! The top call: what the words say, done with the files, the output and the parts that are lent.
#![tactic(auto)]

pub mod laws;
mod top;

pub use board::{NamedPart, Part};
pub use outcome::Status;
pub use top::run;
