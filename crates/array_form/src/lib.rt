//! Weinberger arrays: what it means that a net of NOR gates and latches is laid out in a band of a fabric.
#![tactic(auto)]

mod band;

pub use band::{Band, Placed, Size, Tap};
