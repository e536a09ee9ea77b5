//! Labels on pads: from the labels of nets and the heights of their ports to pads and the metal that joins them.
#![tactic(auto)]

mod labels;

pub use labels::{Padding, padded};
