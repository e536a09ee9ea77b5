//! Rule E22: words where bits are wanted, bits where words are, and names of processes.

ghost use Rattle.std.specs.Prelude.{◌≡◌};
ghost use Rattle.std.specs.Option.{option_map};
ghost use Rattle.mp_program.specs.declared.program.Branch.{Branch};
ghost use Rattle.mp_program.specs.declared.program.Expr.{Expr};
ghost use Rattle.mp_program.specs.declared.program.Form.{Form};
ghost use Rattle.mp_rules.specs.Rules.{E22};
ghost use Rattle.mp_rules.specs.Breaking.{IsEarliest};
ghost use Rattle.mp_rules.specs.Sorts.{IsBit, what_sort, operand_sort, result_sort};
ghost use Rattle.mp_names.specs.Finding.{earliest};
ghost use Rattle.name_meanings.specs.Table.{IsNameTable};
ghost use Rattle.mp_names.specs.Sorting.{meant, sort_in, kind_sort, misfit, operand_misfit, form_misfit};
ghost use Rattle.mp_names.specs.Sorting.{earliest_misfit};

use crate::uses::Misuse;
use mp_base::{Op, Place};
use mp_program::{Branch, Expr, ExprKind, Form, FormKind, Program, What};
use mp_rules::earlier_of;
use name_meanings::NameTable;

/// What an expression is.
#[derive(Clone, Copy, PartialEq, Eq)]
pub enum Sort {
    Word,
    Bit,
}

// What a definition is the name of.
fn what_sort(what: What) -> Option<Sort>
    ensures { option_map meant result ≡ what_sort what }
{
    match what {
        What::Constant(_) | What::Register | What::Port(_) => Some(Sort::Word),
        What::Flag | What::Signal(_) => Some(Sort::Bit),
        _ => None,
    }
}

// What the operands of an operator are.
fn operand_sort(op: Op) -> Sort
    ensures { meant result ≡ operand_sort op }
{
    match op {
        Op::And | Op::Or | Op::Nor | Op::Nand | Op::Xor | Op::Not => Sort::Bit,
        _ => Sort::Word,
    }
}

// What an operator gives.
fn result_sort(op: Op) -> Sort
    ensures { meant result ≡ result_sort op }
{
    match op {
        Op::And | Op::Or | Op::Nor | Op::Nand | Op::Xor | Op::Not => Sort::Bit,
        Op::Bit | Op::Zero | Op::Equal | Op::Less => Sort::Bit,
        _ => Sort::Word,
    }
}

// What a name names.
fn name_sort(program: &Program, names: &NameTable<'_>, name: &[u8]) -> Option<Sort>
    ensures { option_map meant result ≡ sort_in program.now.defs names.now name.now }
{
    let first = names.named(name).first?;
    let def = program.defs.as_slice().get(first as usize)?;
    what_sort(def.what)
}

// What an expression is.
fn expr_sort(program: &Program, names: &NameTable<'_>, expr: &Expr) -> Option<Sort>
    ensures { option_map meant result ≡ kind_sort program.now.defs names.now expr.now.kind }
{
    match &expr.kind {
        ExprKind::Number(_) => Some(Sort::Word),
        ExprKind::Named(name) => name_sort(program, names, name.bytes()),
        ExprKind::True | ExprKind::False => Some(Sort::Bit),
        ExprKind::Apply { op, .. } => Some(result_sort(*op)),
    }
}

// The place of an expression that isn't of the sort that is wanted.
fn misfit(program: &Program, names: &NameTable<'_>, wanted: Sort, expr: u32) -> Option<Place>
    ensures { result ≡ misfit program.now names.now (meant wanted) expr }
{
    let expr = program.exprs.as_slice().get(expr as usize)?;
    match expr_sort(program, names, expr) {
        Some(sort) if sort != wanted => Some(expr.place),
        _ => None,
    }
}

// The earliest operand of an expression that doesn't fit.
fn operand_misfit(program: &Program, names: &NameTable<'_>, expr: &Expr) -> Option<Place>
    ensures { result ≡ operand_misfit program.now names.now expr.now.kind }
{
    match &expr.kind {
        ExprKind::Apply { op, args, .. } => {
            let wanted = operand_sort(*op);
            args.as_slice().iter().fold(None, |found, arg| {
                earlier_of(found, misfit(program, names, wanted, *arg))
            })
        }
        _ => None,
    }
}

// The earliest guard that doesn't fit.
fn guard_misfit(program: &Program, names: &NameTable<'_>, branches: &[Branch]) -> Option<Place>
    ensures { result ≡ earliest (λ (b : Branch). misfit program.now names.now IsBit b.guard) branches.now }
{
    branches.iter().fold(None, |found, branch| {
        earlier_of(found, misfit(program, names, Sort::Bit, branch.guard))
    })
}

// The earliest guard or value in a form that doesn't fit.
fn form_misfit(program: &Program, names: &NameTable<'_>, form: &Form) -> Option<Place>
    ensures { result ≡ form_misfit program.now names.now form.now.kind }
{
    match &form.kind {
        FormKind::Set { target, value, .. } => {
            let wanted = name_sort(program, names, target.bytes())?;
            misfit(program, names, wanted, *value)
        }
        FormKind::Cond(branches) => guard_misfit(program, names, branches.as_slice()),
        _ => None,
    }
}

// The earliest operand in these expressions that doesn't fit.
fn misfit_in_exprs(program: &Program, names: &NameTable<'_>, exprs: &[Expr]) -> Option<Place>
    ensures { result ≡ earliest (λ (x : Expr). operand_misfit program.now names.now x.kind) exprs.now }
{
    exprs.iter().fold(None, |found, expr| {
        earlier_of(found, operand_misfit(program, names, expr))
    })
}

// The earliest guard or value in these forms that doesn't fit.
fn misfit_in_forms(program: &Program, names: &NameTable<'_>, forms: &[Form]) -> Option<Place>
    ensures { result ≡ earliest (λ (y : Form). form_misfit program.now names.now y.kind) forms.now }
{
    forms.iter().fold(None, |found, form| {
        earlier_of(found, form_misfit(program, names, form))
    })
}

// The earliest expression that doesn't fit.
fn earliest_misfit(program: &Program, names: &NameTable<'_>) -> Option<Place>
    ensures { result ≡ earliest_misfit program.now names.now }
{
    let in_exprs = misfit_in_exprs(program, names, program.exprs.as_slice());
    let in_forms = misfit_in_forms(program, names, program.forms.as_slice());
    earlier_of(in_exprs, in_forms)
}

/// Rule E22: the earliest expression of a sort that isn't wanted where it stands, or use of the name of a process.
pub fn wrong_sort(program: &Program, names: &NameTable<'_>) -> Option<Place>
    requires { IsNameTable program.now names.now }
    ensures { IsEarliest (E22 program.now) result }
{
    let misfit = earliest_misfit(program, names);
    earlier_of(misfit, Misuse::OfProcess.earliest(names, program))
}
