//! The program that forms spell, as it is written.
#![tactic(auto)]

mod defs;
mod items;
pub mod laws;
mod parser;

pub use mp_program::{Branch, Form, FormKind, Label, Pin, Process, Way};
pub use mp_written::{Arg, Def, Expr, ExprKind, Program, What};
pub use parser::parse;
