//! A program, by indices into its lists.

ghost use Rattle.std.specs.Prelude.{IsTrue};
ghost use Rattle.mp_program.specs.Fits.{program_fits};
ghost use Rattle.mp_program.specs.Tree.{is_tree};

use mp_base::{List, Name, Op, Place};

#[derive(Clone, Copy, PartialEq, Eq, Debug)]
pub enum Way {
    Input,
    Output,
    Internal,
}

#[derive(Clone, Copy, PartialEq, Eq, Debug)]
pub enum What {
    Power,
    Ground,
    Phia,
    Phib,
    Phic,
    Constant(u64),
    Register,
    Flag,
    Port(Way),
    Signal(Way),
}

#[derive(Clone, Copy, PartialEq, Eq, Debug)]
pub struct Pin {
    pub place: Place,
    pub number: u64,
}

#[derive(Drop)]
pub struct Def {
    pub place: Place,
    pub name: Name,
    pub what: What,
    pub pins: List<Pin>,
}

#[derive(Drop)]
pub enum ExprKind {
    Number(u64),
    Named(Name),
    True,
    False,
    Apply { op: Op, index: u64, args: List<u32> },
}

#[derive(Drop)]
pub struct Expr {
    pub place: Place,
    pub kind: ExprKind,
}

#[derive(Drop)]
pub struct Branch {
    pub guard: u32,
    pub body: List<u32>,
}

#[derive(Drop)]
pub enum FormKind {
    Set { target: Name, at: Place, value: u32 },
    Cond(List<Branch>),
    Par(List<u32>),
    Go(Name),
    Call(Name),
    Return,
}

#[derive(Drop)]
pub struct Form {
    pub place: Place,
    pub kind: FormKind,
}

#[derive(Drop)]
pub struct Label {
    pub place: Place,
    pub name: Name,
    pub before: u32,
}

#[derive(Drop)]
pub struct Process {
    pub place: Place,
    pub name: Name,
    pub depth: u64,
    pub depth_at: Place,
    pub labels: List<Label>,
    pub forms: List<u32>,
}

/// A program. By its type its indices are in range, and it is a tree: no expression and no form stands in two places,
/// and none is nested more than 1024 deep.
#[derive(Drop)]
pub struct Program {
    pub place: Place,
    pub name: Name,
    pub width: u8,
    pub defs: List<Def>,
    pub exprs: List<Expr>,
    pub forms: List<Form>,
    pub always: List<u32>,
    pub processes: List<Process>,
    pub ghost fits: { IsTrue (program_fits width name defs exprs forms always processes) },
    pub ghost tree: { IsTrue (is_tree exprs forms always processes) },
}
