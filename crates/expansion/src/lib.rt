//! The expansion of a program as it is written: without functions, and each use replaced by the body of its function.
#![tactic(auto)]

mod expanding;
mod filling;
mod flags;
mod forms;
mod item;
mod layout;
mod needs;
mod templates;
mod walk;
mod words;

pub use expanding::expand;
pub use flags::tops;
