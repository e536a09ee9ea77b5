//! From a program as it is written to its frame.

ghost use Rattle.std.specs.Prelude.{◌≡◌, IfOk, map};
ghost use Rattle.written_frame.specs.Frame.{frame_kind, frame_expr, frame_what, frame_def, IsFrame};

use crate::copies;
use mp_base::{List, Op};
use mp_program as plain;
use mp_written as written;
use std::alloc::{AllocError, Global};

fn frame_what(what: &written::What) -> plain::What
    ensures { result ≡ frame_what what.now }
{
    match what {
        written::What::Power => plain::What::Power,
        written::What::Ground => plain::What::Ground,
        written::What::Phia => plain::What::Phia,
        written::What::Phib => plain::What::Phib,
        written::What::Phic => plain::What::Phic,
        written::What::Constant(value) => plain::What::Constant(*value),
        written::What::Register => plain::What::Register,
        written::What::Flag => plain::What::Flag,
        written::What::Port(way) => plain::What::Port(*way),
        written::What::Signal(way) => plain::What::Signal(*way),
        written::What::Function { .. } => plain::What::Constant(0),
    }
}

fn frame_def(alloc: Global, def: &written::Def) -> Result<plain::Def, AllocError>
    ensures { IfOk result (λ d. d ≡ frame_def def.now) }
{
    let name = copies::name(alloc, &def.name)?;
    Ok(plain::Def {
        place: def.place,
        name,
        what: frame_what(&def.what),
        pins: copies::pins(alloc, &def.pins)?,
    })
}

fn frame_defs(alloc: Global, defs: &List<written::Def>) -> Result<List<plain::Def>, AllocError>
    ensures { IfOk result (λ list. list ≡ map frame_def defs.now) }
{
    let mut list = List::new(alloc);
    for def in defs.as_slice() {
        list.push(frame_def(alloc, def)?)?;
    }
    Ok(list)
}

fn frame_kind(alloc: Global, kind: &written::ExprKind) -> Result<plain::ExprKind, AllocError>
    ensures { IfOk result (λ k. k ≡ frame_kind kind.now) }
{
    match kind {
        written::ExprKind::Number(value) => Ok(plain::ExprKind::Number(*value)),
        written::ExprKind::Named(name) => Ok(plain::ExprKind::Named(copies::name(alloc, name)?)),
        written::ExprKind::True => Ok(plain::ExprKind::True),
        written::ExprKind::False => Ok(plain::ExprKind::False),
        written::ExprKind::Apply { op, index, args } => Ok(plain::ExprKind::Apply {
            op: *op,
            index: *index,
            args: copies::indices(alloc, args)?,
        }),
        written::ExprKind::Use { args, .. } => Ok(plain::ExprKind::Apply {
            op: Op::And,
            index: 0,
            args: copies::indices(alloc, args)?,
        }),
    }
}

fn frame_expr(alloc: Global, expr: &written::Expr) -> Result<plain::Expr, AllocError>
    ensures { IfOk result (λ x. x ≡ frame_expr expr.now) }
{
    Ok(plain::Expr {
        place: expr.place,
        kind: frame_kind(alloc, &expr.kind)?,
    })
}

fn frame_exprs(alloc: Global, exprs: &List<written::Expr>) -> Result<List<plain::Expr>, AllocError>
    ensures { IfOk result (λ list. list ≡ map frame_expr exprs.now) }
{
    let mut list = List::new(alloc);
    for expr in exprs.as_slice() {
        list.push(frame_expr(alloc, expr)?)?;
    }
    Ok(list)
}

/// The frame of a program, or want of memory. It takes memory and time as the program does.
pub fn frame(alloc: Global, program: &written::Program) -> Result<plain::Program, AllocError>
    ensures { IfOk result (IsFrame program.now) }
{
    let defs = frame_defs(alloc, &program.defs)?;
    let exprs = frame_exprs(alloc, &program.exprs)?;
    let forms = copies::forms(alloc, &program.forms)?;
    let always = copies::indices(alloc, &program.always)?;
    let processes = copies::processes(alloc, &program.processes)?;
    Ok(plain::Program {
        place: program.place,
        name: copies::name(alloc, &program.name)?,
        width: program.width,
        defs,
        exprs,
        forms,
        always,
        processes,
    })
}
