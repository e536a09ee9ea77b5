//! Rules E20 to E45 of programs as they are written: what one breaks, and what it breaks first.
#![tactic(auto)]

pub mod laws;
