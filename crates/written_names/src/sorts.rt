//! Rule E22: words where bits are wanted, bits where words are, and names that are no values.

ghost use Rattle.std.specs.Prelude.{◌≡◌, IfOk, None, length, map, slice_index_or};
ghost use Rattle.std.specs.Option.{option_map};
ghost use Rattle.mp_base.specs.declared.refusal.Place.{Place};
ghost use Rattle.mp_program.specs.declared.program.Branch.{Branch};
ghost use Rattle.mp_program.specs.declared.program.Form.{Form};
ghost use Rattle.mp_rules.specs.Breaking.{IsEarliest};
ghost use Rattle.mp_rules.specs.Sorts.{IsBit, operand_sort, result_sort};
ghost use Rattle.mp_names.specs.Finding.{earliest};
ghost use Rattle.mp_written.specs.declared.program.Expr.{Expr};
ghost use Rattle.mp_written.specs.Functions.{functions};
ghost use Rattle.written_rules.specs.Rules.{E20, E22};
ghost use Rattle.written_rules.specs.Sorts.{what_sort, function_sorts};
ghost use Rattle.written_meanings.specs.Meanings.{AreMeanings};
ghost use Rattle.written_names.specs.Table.{NamesWritten};
ghost use Rattle.written_names.specs.Sorting.{meant, sort_in, kind_sort, AreSorts, misfit, operand_misfit, form_misfit};
ghost use Rattle.written_names.specs.Sorting.{earliest_misfit};

use crate::uses::{Misuse, definition};
use mp_base::{List, Op, Place};
use mp_program::{Branch, Form, FormKind};
use mp_rules::earlier_of;
use mp_written::{Expr, ExprKind, Program, What};
use name_meanings::NameTable;
use std::alloc::{AllocError, Global};
use written_meanings::{Meaning, Meanings};

/// What an expression is.
#[derive(Clone, Copy, PartialEq, Eq)]
pub enum Sort {
    Word,
    Bit,
}

// What the operands of an operator are.
fn operand_sort(op: Op) -> Sort
    ensures { meant result ≡ operand_sort op }
{
    match op {
        Op::And | Op::Or | Op::Nor | Op::Nand | Op::Xor | Op::Not => Sort::Bit,
        _ => Sort::Word,
    }
}

// What an operator gives.
fn result_sort(op: Op) -> Sort
    ensures { meant result ≡ result_sort op }
{
    match op {
        Op::And | Op::Or | Op::Nor | Op::Nand | Op::Xor | Op::Not => Sort::Bit,
        Op::Bit | Op::Zero | Op::Equal | Op::Less => Sort::Bit,
        _ => Sort::Word,
    }
}

// What a definition is the name of.
fn what_sort(what: &What) -> Option<Sort>
    ensures { option_map meant result ≡ what_sort what.now }
{
    match what {
        What::Constant(_) | What::Register | What::Port(_) => Some(Sort::Word),
        What::Flag | What::Signal(_) => Some(Sort::Bit),
        _ => None,
    }
}

// What a name names that is no argument.
fn name_sort(program: &Program, names: &NameTable<'_>, name: &[u8]) -> Option<Sort>
    ensures { option_map meant result ≡ sort_in program.now.defs names.now name.now }
{
    what_sort(&definition(program, names, name)?.what)
}

// The sort at an index, if there is one.
fn sort_at(sorts: &[Option<Sort>], index: u32) -> Option<Sort>
    ensures { result ≡ slice_index_or sorts.now index None }
{
    let index = index as usize;
    if index < sorts.len() {
        sorts[index]
    } else {
        None
    }
}

// What an expression of a meaning is, where these are the sorts of functions.
fn expr_sort(
    program: &Program,
    names: &NameTable<'_>,
    functions: &[Option<Sort>],
    expr: &Expr,
    meaning: Meaning,
) -> Option<Sort>
    ensures { option_map meant result ≡ kind_sort program.now.defs names.now functions.now expr.now.kind meaning }
{
    match &expr.kind {
        ExprKind::Number(_) => Some(Sort::Word),
        ExprKind::Named(name) => {
            if meaning.argument.is_some() {
                Some(Sort::Word)
            } else {
                name_sort(program, names, name.bytes())
            }
        }
        ExprKind::True | ExprKind::False => Some(Sort::Bit),
        ExprKind::Apply { op, .. } => Some(result_sort(*op)),
        ExprKind::Use { .. } => sort_at(functions, meaning.function?),
    }
}

// The sorts of the bodies of functions.
fn function_sorts(
    alloc: Global,
    program: &Program,
    meanings: &Meanings,
    names: &NameTable<'_>,
) -> Result<List<Option<Sort>>, AllocError>
    requires meant { AreMeanings program.now meanings.now }
    requires names { NamesWritten program.now names.now }
    ensures { IfOk result (λ sorts. map (option_map meant) sorts
        ≡ function_sorts program.now (length (functions program.now))) }
{
    mp_written::laws::sound();
    let exprs = program.exprs.as_slice();
    let meant = meanings.exprs.as_slice();
    let mut sorts = List::new(alloc);
    for body in meanings.bodies.as_slice() {
        let e = body.expr as usize;
        let sort = expr_sort(program, names, sorts.as_slice(), &exprs[e], meant[e]);
        sorts.push(sort)?;
    }
    Ok(sorts)
}

// The sorts of all expressions.
fn expr_sorts(
    alloc: Global,
    program: &Program,
    meanings: &Meanings,
    names: &NameTable<'_>,
) -> Result<List<Option<Sort>>, AllocError>
    requires meant { AreMeanings program.now meanings.now }
    requires names { NamesWritten program.now names.now }
    ensures { IfOk result (AreSorts program.now) }
{
    let functions = function_sorts(alloc, program, meanings, names)?;
    let meant = meanings.exprs.as_slice();
    let mut sorts = List::new(alloc);
    for (e, expr) in program.exprs.as_slice().iter().enumerate() {
        sorts.push(expr_sort(program, names, functions.as_slice(), expr, meant[e]))?;
    }
    Ok(sorts)
}

// The place of an expression that isn't of the sort that is wanted.
fn misfit(exprs: &[Expr], sorts: &[Option<Sort>], wanted: Sort, expr: u32) -> Option<Place>
    ensures { result ≡ misfit exprs.now sorts.now (meant wanted) expr }
{
    let place = exprs.get(expr as usize)?.place;
    match sort_at(sorts, expr) {
        Some(sort) if sort != wanted => Some(place),
        _ => None,
    }
}

// The earliest of these operands that isn't of the sort that is wanted.
fn misfit_in(
    exprs: &[Expr],
    sorts: &[Option<Sort>],
    wanted: Sort,
    operands: &[u32],
) -> Option<Place>
    ensures { result ≡ earliest (misfit exprs.now sorts.now (meant wanted)) operands.now }
{
    operands.iter().fold(None, |found, operand| {
        earlier_of(found, misfit(exprs, sorts, wanted, *operand))
    })
}

// The earliest operand of an expression that doesn't fit.
fn operand_misfit(exprs: &[Expr], sorts: &[Option<Sort>], expr: &Expr) -> Option<Place>
    ensures { result ≡ operand_misfit exprs.now sorts.now expr.now.kind }
{
    match &expr.kind {
        ExprKind::Apply { op, args, .. } => {
            misfit_in(exprs, sorts, operand_sort(*op), args.as_slice())
        }
        ExprKind::Use { args, .. } => misfit_in(exprs, sorts, Sort::Word, args.as_slice()),
        _ => None,
    }
}

// The earliest guard that doesn't fit.
fn guard_misfit(exprs: &[Expr], sorts: &[Option<Sort>], branches: &[Branch]) -> Option<Place>
    ensures { result ≡ earliest (λ (b : Branch). misfit exprs.now sorts.now IsBit b.guard) branches.now }
{
    branches.iter().fold(None, |found, branch| {
        earlier_of(found, misfit(exprs, sorts, Sort::Bit, branch.guard))
    })
}

// The earliest guard or value in a form that doesn't fit.
fn form_misfit(
    program: &Program,
    names: &NameTable<'_>,
    sorts: &[Option<Sort>],
    form: &Form,
) -> Option<Place>
    ensures { result ≡ form_misfit program.now names.now sorts.now form.now.kind }
{
    let exprs = program.exprs.as_slice();
    match &form.kind {
        FormKind::Set { target, value, .. } => {
            let wanted = name_sort(program, names, target.bytes())?;
            misfit(exprs, sorts, wanted, *value)
        }
        FormKind::Cond(branches) => guard_misfit(exprs, sorts, branches.as_slice()),
        _ => None,
    }
}

// The earliest operand in these expressions that doesn't fit.
fn misfit_in_exprs(exprs: &[Expr], sorts: &[Option<Sort>]) -> Option<Place>
    ensures { result ≡ earliest (λ (x : Expr). operand_misfit exprs.now sorts.now x.kind) exprs.now }
{
    exprs.iter().fold(None, |found, expr| {
        earlier_of(found, operand_misfit(exprs, sorts, expr))
    })
}

// The earliest guard or value in the forms that doesn't fit.
fn misfit_in_forms(
    program: &Program,
    names: &NameTable<'_>,
    sorts: &[Option<Sort>],
) -> Option<Place>
    ensures { result ≡ earliest (λ (y : Form). form_misfit program.now names.now sorts.now y.kind) program.now.forms }
{
    program.forms.as_slice().iter().fold(None, |found, form| {
        earlier_of(found, form_misfit(program, names, sorts, form))
    })
}

// The earliest expression that doesn't fit.
fn earliest_misfit(
    program: &Program,
    names: &NameTable<'_>,
    sorts: &[Option<Sort>],
) -> Option<Place>
    ensures { result ≡ earliest_misfit program.now names.now sorts.now }
{
    let in_exprs = misfit_in_exprs(program.exprs.as_slice(), sorts);
    earlier_of(in_exprs, misfit_in_forms(program, names, sorts))
}

/// Rule E22: the earliest expression of a sort that isn't wanted where it stands, or use of the name of a process or
/// function as a value. Errors: want of memory.
pub fn wrong_sort(
    alloc: Global,
    program: &Program,
    meanings: &Meanings,
    names: &NameTable<'_>,
) -> Result<Option<Place>, AllocError>
    requires meant { AreMeanings program.now meanings.now }
    requires names { NamesWritten program.now names.now }
    requires apart { (at : Place) → ¬ E20 program.now at }
    ensures { IfOk result (IsEarliest (E22 program.now)) }
{
    let sorts = expr_sorts(alloc, program, meanings, names)?;
    let misfit = earliest_misfit(program, names, sorts.as_slice());
    let in_exprs = Misuse::NoValue.in_exprs(program, meanings, names);
    let misuse = earlier_of(in_exprs, Misuse::NoValue.of_targets(program, names));
    Ok(earlier_of(misfit, misuse))
}
