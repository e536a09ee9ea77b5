//! Files of masks, read and judged.
#![tactic(auto)]

pub mod laws;
mod limits;
mod masks;

pub use limits::MASK_LIMIT;
pub use masks::{read_drawing, read_network};
