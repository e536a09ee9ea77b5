//! The lambda rules, judged.
#![tactic(auto)]

mod judging;

pub use judging::{Verdict, judge};
