//! From the promises of the compiler's steps to the headline.
#![tactic(auto)]

pub mod laws;
