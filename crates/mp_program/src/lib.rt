//! Programs, and what they mean.
#![tactic(auto)]

mod kinds;
pub mod laws;
mod program;

pub use program::{
    Branch, Def, Expr, ExprKind, Form, FormKind, Label, Pin, Process, Program, Way, What,
};
