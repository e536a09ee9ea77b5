//! Files of sources and stimuli, read and judged.
#![tactic(auto)]

pub mod laws;
mod limits;
mod prepared;
mod source;
mod stimuli;

pub use limits::TEXT_LIMIT;
pub use prepared::{Prepared, prepare};
pub use source::read_source;
pub use stimuli::{read_headed, read_stimulus};
