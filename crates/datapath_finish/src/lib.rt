//! The data path at the end of its making.
#![tactic(auto)]

mod finishing;

pub use finishing::finish;
