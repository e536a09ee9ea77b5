//! What the names in a program's expressions mean as they are written, and in which bodies the expressions stand.
#![tactic(auto)]

mod firsts;
mod functions;
mod meanings;
mod owners;

pub use firsts::Firsts;
pub use functions::Body;
pub use meanings::{Meaning, Meanings, meanings_of};
