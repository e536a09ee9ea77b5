//! What is so of a program's expansion where what is written breaks no rule: laws.
#![tactic(auto)]

pub mod laws;
