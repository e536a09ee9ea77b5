//! The real files and the real output, which tell nothing of what they hold: the trusted edge.
#![tactic(auto)]

mod files;
mod output;

pub use files::FileDepot;
pub use output::OutSink;
