//! What the register transfers of a program are to be, and the laws that transfers which are built so show what the
//! program shows, at no more cost than it weighs. The passes that build them are in `process_sequencer`.
//!
//! Each place of a process but the first becomes a stored bit, and so does each place that an entry of its stack may
//! be: the bit of the place where the process is, is 1, and none is where it is at the first. Each form has an
//! expression that is 1 in the clocks in which the form is active; it guards the form's transfers.
#![tactic(auto)]

mod enable;
pub mod laws;
mod role;

pub use enable::{Enable, Origin};
pub use role::Role;
