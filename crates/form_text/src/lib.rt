//! Forms that are written down: their text, and the law that it spells them.
#![tactic(auto)]

pub mod laws;
