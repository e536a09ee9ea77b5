//! The runs of a row of cells, kept while the row changes.
#![tactic(auto)]

mod borders;
mod runs;

pub use runs::KeptRuns;
