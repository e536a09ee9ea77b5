//! Orders in which the expressions and driven cells of guarded transfers can be made.
#![tactic(auto)]

mod scheduling;
mod task;

pub use scheduling::schedule;
pub use task::Task;
