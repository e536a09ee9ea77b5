//! The classes and the shapes of the table of shapes.

use mp_base::Op;

/// A class of the table: what a node has to be at its place.
#[derive(Clone, Copy, PartialEq, Eq)]
pub enum Class {
    /// A program.
    Whole,
    /// A definition, an `always` or a process.
    Item,
    /// A label or a form, in a process.
    Element,
    /// A form.
    Action,
    /// A branch of a `cond`.
    Branch,
    /// An expression.
    Value,
    /// A symbol.
    Word,
    /// A number that is no expression.
    Numeral,
}

/// What a `def` defines.
#[derive(Clone, Copy, PartialEq, Eq)]
pub enum Definition {
    Power,
    Ground,
    Phia,
    Phib,
    Phic,
    Constant,
    Register,
    Flag,
    PortInput,
    PortOutput,
    PortInternal,
    SignalInput,
    SignalOutput,
    SignalInternal,
    Function,
}

/// A shape of the table.
#[derive(Clone, Copy, PartialEq, Eq)]
pub enum Layout {
    /// A number or a symbol that stands for itself.
    Leaf,
    /// `(program SYMBOL NUMBER ITEM*)`
    Program,
    /// A `def`, whose items stand for nothing further, but for the body of a function.
    Def(Definition),
    /// `(always FORM+)`
    Always,
    /// `(process SYMBOL NUMBER ELEMENT*)`
    Process,
    /// `(setq SYMBOL EXPR)`
    Setq,
    /// `(cond BRANCH+)`
    Cond,
    /// `(par FORM+)`
    Par,
    /// `(go SYMBOL)`
    Go,
    /// `(call SYMBOL)`
    Call,
    /// `(return)`
    Return,
    /// `(EXPR FORM*)`, a branch of a `cond`.
    Guarded,
    /// An operator and its operands, which are expressions.
    Apply(Op),
    /// `(bit NUMBER EXPR)`
    Bit,
    /// `(SYMBOL EXPR+)`, where the symbol is no operator: a use of a function.
    Use,
}
