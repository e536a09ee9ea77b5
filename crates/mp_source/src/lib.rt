//! Source texts, judged by all rules of sources.
#![tactic(auto)]

mod judge;
pub mod laws;

pub use judge::check_source;
