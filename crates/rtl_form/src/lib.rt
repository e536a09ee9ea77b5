//! Guarded transfers: cells that are driven or stored, and expressions that guard and feed them.
#![tactic(auto)]

pub mod laws;
mod rtl;

pub use rtl::{Cell, CellKind, Rtl, RtlExpr, Transfer};
