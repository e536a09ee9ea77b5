//! The gates and latches of a bit: of an expression, a driven cell, an input or a stored bit.
#![tactic(auto)]

mod cells;
mod exprs;
mod gates;
mod rails;

pub use cells::{lower_driven, lower_first, lower_next, select_transfers};
pub use exprs::lower_expr;
pub use rails::{Rails, named};
