//! Weinberger arrays: a net of NOR gates and latches laid out in a band of a fabric.
#![tactic(auto)]

mod added;
mod layout;
mod pins;
mod placing;

pub use array_form::{Band, Placed, Size, Tap};
pub use placing::{measure, place};
