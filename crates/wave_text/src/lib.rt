//! The states of a program and its pads, clock by clock, as a value change dump.
#![tactic(auto)]

mod head;
mod text;
mod values;

pub use head::push_head;
pub use values::{push_end, push_state, push_values};
