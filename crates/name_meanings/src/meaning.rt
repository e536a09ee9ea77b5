//! What each name in a program means.

ghost use Rattle.std.specs.Prelude.{◌≡◌, IfOk, map};
ghost use Rattle.mp_program.specs.declared.program.Expr.{Expr};
ghost use Rattle.mp_program.specs.declared.program.Form.{Form};
ghost use Rattle.name_meanings.specs.Table.{IsNameTable};
ghost use Rattle.name_meanings.specs.Meaning.{AreMeanings};
ghost use Rattle.name_meanings.specs.Meant.{expr_meaning, target_meaning};

use crate::table::NameTable;
use mp_base::List;
use mp_program::{Expr, ExprKind, Form, FormKind, Program};
use std::alloc::{AllocError, Global};

/// The definitions that are named, by their indices: by each expression that is a name, and by each `setq`. The
/// entries of other expressions and forms mean nothing.
#[derive(Drop)]
pub struct Meanings {
    pub exprs: List<u32>,
    pub targets: List<u32>,
}

// The index of the definition that an expression names.
fn expr_meaning(names: &NameTable<'_>, expr: &Expr) -> u32
    ensures { result ≡ expr_meaning names.now expr.now.kind }
{
    match &expr.kind {
        ExprKind::Named(name) => names.index_of(name.bytes()),
        _ => 0,
    }
}

// The index of the definition that a form sets.
fn target_meaning(names: &NameTable<'_>, form: &Form) -> u32
    ensures { result ≡ target_meaning names.now form.now.kind }
{
    match &form.kind {
        FormKind::Set { target, .. } => names.index_of(target.bytes()),
        _ => 0,
    }
}

// The definitions that expressions name.
fn expr_meanings(
    alloc: Global,
    names: &NameTable<'_>,
    exprs: &[Expr],
) -> Result<Vec<u32>, AllocError>
    ensures { IfOk result (λ v. v.items ≡ map (λ (x : Expr). expr_meaning names.now x.kind) exprs.now) }
{
    exprs
        .iter()
        .map(|expr| expr_meaning(names, expr))
        .collect(alloc)
}

// The definitions that forms set.
fn target_meanings(
    alloc: Global,
    names: &NameTable<'_>,
    forms: &[Form],
) -> Result<Vec<u32>, AllocError>
    ensures { IfOk result (λ v. v.items ≡ map (λ (y : Form). target_meaning names.now y.kind) forms.now) }
{
    forms
        .iter()
        .map(|form| target_meaning(names, form))
        .collect(alloc)
}

/// What the names in a program mean. Errors: want of memory.
pub fn meanings_of(
    alloc: Global,
    program: &Program,
    names: &NameTable<'_>,
) -> Result<Meanings, AllocError>
    requires { IsNameTable program.now names.now }
    ensures { IfOk result (AreMeanings program.now) }
{
    let exprs = expr_meanings(alloc, names, program.exprs.as_slice())?;
    let targets = target_meanings(alloc, names, program.forms.as_slice())?;
    Ok(Meanings {
        exprs: List::from_vec(exprs),
        targets: List::from_vec(targets),
    })
}
