//! Sets of nodes that keep their order, and that are cleared at once.
#![tactic(auto)]

mod set;

pub use set::NodeSet;
