//! Guarded transfers, by indices into their lists.

use mp_base::{List, Op, Pads};

/// Where a cell has its value from.
#[derive(Clone, Copy, PartialEq, Eq, Debug)]
pub enum CellKind {
    /// The cell of the input pad with this index.
    Input(u32),
    /// The cell of the output pad with this index, which transfers drive.
    Output(u32),
    /// A cell without a pad that transfers drive.
    Inner,
    /// A cell whose value lasts to the next clock.
    Stored,
}

/// A word, or else a bit, that has a value in each clock.
#[derive(Clone, Copy, PartialEq, Eq, Debug)]
pub struct Cell {
    pub word: bool,
    pub kind: CellKind,
}

/// Where the guard is 1, the target, which is a cell, takes the value. Guard and value are expressions.
#[derive(Clone, Copy, PartialEq, Eq, Debug)]
pub struct Transfer {
    pub guard: u32,
    pub target: u32,
    pub value: u32,
}

/// A word or a bit that is made of cells. Its arguments are expressions before it; the index is that of `bit`.
#[derive(Drop)]
pub enum RtlExpr {
    Number(u64),
    Truth(bool),
    Cell(u32),
    Apply { op: Op, index: u64, args: List<u32> },
}

/// Guarded transfers between cells. `order` is an order in which the driven cells can be evaluated, and `reset` the
/// cell of the input signal `reset`.
#[derive(Drop)]
pub struct Rtl {
    pub width: u8,
    pub pads: Pads,
    pub cells: List<Cell>,
    pub exprs: List<RtlExpr>,
    pub transfers: List<Transfer>,
    pub order: List<u32>,
    pub reset: Option<u32>,
}
