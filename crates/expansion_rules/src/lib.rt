//! The rules of a program's expansion: where what is written breaks none, the expansion breaks none. Laws.
#![tactic(auto)]

pub mod laws;
