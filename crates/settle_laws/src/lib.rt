//! Laws of settings in which gates come before what they gate: each solution is the settled one, however it was found.
#![tactic(auto)]

pub mod laws;
