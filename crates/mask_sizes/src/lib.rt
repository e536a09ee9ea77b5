//! The sizes of the channels and nodes that a mask draws.
#![tactic(auto)]

mod masks;
mod measuring;
mod sums;

pub use measuring::sizes_of;
