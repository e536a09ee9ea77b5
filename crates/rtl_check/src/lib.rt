//! Whether guarded transfers fit together.
#![tactic(auto)]

mod entries;
mod exprs;
mod operands;
mod order;
mod pads;
mod reset;
mod soundness;
mod transfers;

pub use soundness::is_sound;
