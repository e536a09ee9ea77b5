//! Steps in which the nets of a data path are made.

/// What is made in one step: the nets of the expression, or of the driven cell, with this index.
#[derive(Clone, Copy)]
pub enum Task {
    Expr(u32),
    Cell(u32),
}
