//! The classes of joined pieces: the nodes and the channels of a mask.
#![tactic(auto)]

mod classed;
mod contacts;
mod linking;
mod numbering;
mod touching;

pub use classed::{Classed, classify};
pub use numbering::Classes;
