//! The least solution, from unknown values, by looks at clusters until nothing changes.
#![tactic(auto)]

mod evaluate;
mod passes;
mod queue;

pub use passes::solve;
pub use queue::Queue;
