//! Programs as they are written, with functions and uses of them, and what their expansion is.
#![tactic(auto)]

pub mod laws;
mod program;

pub use program::{Arg, Def, Expr, ExprKind, Program, What};
