//! What a band of a Weinberger array is made of, in lists: the columns of nets, the columns in which segments are
//! marked and those that they span, and the segments, lines and marks of nets.
#![tactic(auto)]

pub mod homes;
pub mod lists;
pub mod marks;
mod parts;
pub mod pins;
pub mod spans;
