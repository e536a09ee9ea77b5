//! Drafts of data paths, and the test whether one is a data path.
#![tactic(auto)]

mod draft;
mod ends;
mod flags;
mod joints;
mod nets;
mod path;

pub use draft::{Draft, DraftPart};
pub use ends::entries_of;
pub use path::path_of;
