//! Slices of a data path in the bands above its control: what is added to a fabric for them, and laws that it fits.
#![tactic(auto)]

pub mod laws;
