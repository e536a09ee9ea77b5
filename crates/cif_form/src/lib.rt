//! CIF 2.0: the commands of a file, its text, and what it draws (Mead and Conway, chapter 4).
#![tactic(auto)]

mod command;
mod fitness;
pub mod laws;
mod limits;
mod turns;

pub use command::{Command, Item, Turn};
pub use limits::{NUMBER_LIMIT, WALK_LIMIT};
pub use turns::{Turns, TurnsIter};
