//! The copies of a program's expressions.

ghost use Rattle.std.specs.Prelude.{◌≡◌, ◌<◌, ◌∷◌, [], ℕ, Contains, length, map, true, IfOk};
ghost use Rattle.mp_base.specs.declared.op.Op.TheVariants.{Not};
ghost use Rattle.mp_names.specs.Defined.{NamesDefinitions};
ghost use Rattle.name_meanings.specs.Meaning.{AreMeanings};
ghost use Rattle.mp_rules.specs.Breaking.{IsUnbroken};
ghost use Rattle.rtl_form.specs.declared.rtl.RtlExpr.TheVariants.{Truth, Apply};
ghost use Rattle.process_plan.specs.Roles.{AreCells};
ghost use Rattle.process_plan.specs.Enables.{copy_of};
ghost use Rattle.process_enables.specs.Copies.{IsNamedCopy, IsCopyAt, AreCopiedFrom};

use crate::exprs::negation;
use crate::forms::copy_of;
use mp_base::{List, NoMemory};
use mp_names::laws::meanings_are_definitions;
use mp_names::{Meanings, NameTable, meanings_of};
use mp_program::laws::sound;
use mp_program::{ExprKind, Program, What};
use mp_rules::laws::own_names;
use process_layout::Layout;
use process_plan::Role;
use rtl_form::RtlExpr;
use std::alloc::Global;

// The copies of the arguments of an operator.
fn copied_args(alloc: Global, program: &Program, args: &[u32]) -> Result<List<u32>, NoMemory>
    requires { (a : ℕ) → Contains args.now a → a < length program.now.exprs }
    ensures { IfOk result (λ copies. copies ≡ map (copy_of program.now) args.now) }
{
    let mut copies = List::new(alloc);
    for arg in args {
        let copy = copy_of(program, *arg)?;
        copies.push(copy)?;
    }
    Ok(copies)
}

// What a name becomes: a constant its number, anything else its cell, which it has where the program breaks no rule.
fn copied_name(program: &Program, layout: &Layout, def: u32) -> Result<RtlExpr, NoMemory>
    requires { def < length program.now.defs }
    ensures { IfOk result (IsNamedCopy program.now layout.now.roles def) }
{
    if let What::Constant(value) = program.defs.at(def).what {
        return Ok(RtlExpr::Number(value));
    }
    let Some(cell) = layout.cell(Role::Value(def)) else {
        return Err(NoMemory);
    };
    Ok(RtlExpr::Cell(cell))
}

// The copy of an expression.
fn copied(
    alloc: Global,
    program: &Program,
    layout: &Layout,
    meanings: &Meanings,
    expr: u32,
) -> Result<RtlExpr, NoMemory>
    requires inside { expr < length program.now.exprs }
    requires meanings { AreMeanings program.now meanings.now }
    requires defined { NamesDefinitions program.now meanings.now }
    ensures { IfOk result (IsCopyAt program.now layout.now.roles expr) }
{
    sound(program);
    match &program.exprs.at(expr).kind {
        ExprKind::Number(value) => Ok(RtlExpr::Number(*value)),
        ExprKind::Named(_) => copied_name(program, layout, *meanings.exprs.at(expr)),
        ExprKind::True => negation(alloc, 1),
        ExprKind::False => negation(alloc, 0),
        ExprKind::Apply { op, index, args } => {
            let args = copied_args(alloc, program, args.as_slice())?;
            Ok(RtlExpr::Apply {
                op: *op,
                index: *index,
                args,
            })
        }
    }
}

// The expression that is true, and its negation.
fn truths(alloc: Global) -> Result<List<RtlExpr>, NoMemory>
    ensures { IfOk result (λ exprs. exprs ≡ Truth true ∷ Apply Not 0 (0 ∷ []) ∷ []) }
{
    let mut exprs = List::new(alloc);
    exprs.push(RtlExpr::Truth(true))?;
    let negated = negation(alloc, 0)?;
    exprs.push(negated)?;
    Ok(exprs)
}

/// The expression that is true, its negation, and behind them the copies of all expressions, the last one first.
///
/// # Errors
///
/// `NoMemory`.
pub(crate) fn copies(
    alloc: Global,
    program: &Program,
    layout: &Layout,
) -> Result<List<RtlExpr>, NoMemory>
    requires unbroken { IsUnbroken program.now }
    requires cells { AreCells program.now layout.now.roles layout.now.cells }
    ensures { IfOk result (AreCopiedFrom program.now layout.now.roles layout.now.cells 0) }
{
    sound(program);
    let names = NameTable::of(alloc, program)?;
    let meanings = meanings_of(alloc, program, &names)?;
    meanings_are_definitions(program, &meanings);
    let Ok(count) = u32::try_from(program.exprs.len()) else {
        return Err(NoMemory);
    };
    let mut exprs = truths(alloc)?;
    for expr in (0..count).rev() {
        let copy = copied(alloc, program, layout, &meanings, expr)?;
        exprs.push(copy)?;
    }
    Ok(exprs)
}
