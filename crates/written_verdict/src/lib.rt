//! A program as it is written breaks no rule, or one of them first.
#![tactic(auto)]

pub mod laws;
