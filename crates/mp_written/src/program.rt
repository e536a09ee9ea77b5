//! A program as it is written, by indices into its lists.

ghost use Rattle.std.specs.Prelude.{IsTrue};
ghost use Rattle.mp_written.specs.Fits.{program_fits};
ghost use Rattle.mp_written.specs.Tree.{is_tree};

use mp_base::{List, Name, Op, Place};
use mp_program::{Form, Pin, Process, Way};

/// An argument of a function.
#[derive(Drop)]
pub struct Arg {
    pub place: Place,
    pub name: Name,
}

/// What a definition is: a function, or what a program without functions may define.
#[derive(Drop)]
pub enum What {
    Power,
    Ground,
    Phia,
    Phib,
    Phic,
    Constant(u64),
    Register,
    Flag,
    Port(Way),
    Signal(Way),
    /// Its arguments, and the index of the expression that is its body.
    Function { args: List<Arg>, body: u32 },
}

#[derive(Drop)]
pub struct Def {
    pub place: Place,
    pub name: Name,
    pub what: What,
    pub pins: List<Pin>,
}

#[derive(Drop)]
pub enum ExprKind {
    Number(u64),
    Named(Name),
    True,
    False,
    Apply {
        op: Op,
        index: u64,
        args: List<u32>,
    },
    /// A use of a function: the place of its name, its name, and the operands.
    Use {
        at: Place,
        name: Name,
        args: List<u32>,
    },
}

#[derive(Drop)]
pub struct Expr {
    pub place: Place,
    pub kind: ExprKind,
}

/// A program as it is written. By its type its indices are in range, and it is a tree: no expression and no form stands
/// in two places, and none is nested more than 1024 deep.
#[derive(Drop)]
pub struct Program {
    pub place: Place,
    pub name: Name,
    pub width: u8,
    pub defs: List<Def>,
    pub exprs: List<Expr>,
    pub forms: List<Form>,
    pub always: List<u32>,
    pub processes: List<Process>,
    pub ghost fits: { IsTrue (program_fits width name defs exprs forms always processes) },
    pub ghost tree: { IsTrue (is_tree defs exprs forms always processes) },
}
