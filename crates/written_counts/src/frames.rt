//! What definitions, forms and processes weigh.

ghost use Rattle.std.specs.Prelude.{◌≡◌, ◌<◌, ◌≤◌, IfOk, MatchOption};
ghost use Rattle.std.specs.List.{sum_by};
ghost use Rattle.mp_program.specs.declared.program.Expr.{Expr};
ghost use Rattle.mp_program.specs.Weight.{expr_weight};
ghost use Rattle.mp_rules.specs.Naming.{OwnNames};
ghost use Rattle.name_meanings.specs.Meaning.{AreMeanings};
ghost use Rattle.written_counts.specs.Costs.{plain_name_cost, plain_cost};
ghost use Rattle.written_counts.specs.Frames.{weight_beside};

use crate::costs::op_cost;
use mp_program::{Def, ExprKind, Program, What};
use mp_weight::weight_within;
use name_meanings::Meanings;
use std::alloc::{AllocError, Global};

// A name that means the definition at an index: a constant weighs one.
fn name_cost(defs: &[Def], index: u32) -> u64
    ensures { result ≡ plain_name_cost defs.now index }
{
    match defs.get(index as usize) {
        Some(def) => {
            if matches!(def.what, What::Constant(_)) {
                1
            } else {
                0
            }
        }
        None => 0,
    }
}

// An expression of a kind, where a name means the definition at an index.
fn cost(defs: &[Def], index: u32, kind: &ExprKind) -> u64
    ensures { result ≡ plain_cost defs.now index kind.now }
{
    match kind {
        ExprKind::Number(_) | ExprKind::True | ExprKind::False => 1,
        ExprKind::Named(_) => name_cost(defs, index),
        ExprKind::Apply { op, args, .. } => {
            let args = args.as_slice();
            op_cost(*op, args.len() as u64)
        }
    }
}

// The weight of all expressions. There is no room for so many that it would not fit.
fn exprs_weight(program: &Program, meanings: &Meanings) -> Result<u64, AllocError>
    requires { AreMeanings program.now meanings.now }
    ensures { IfOk result (λ weight. weight ≡ sum_by (λ (e : Expr). expr_weight program.now e.kind) program.now.exprs) }
{
    let defs = program.defs.as_slice();
    let meant = meanings.exprs.as_slice();
    let mut weight = 0u64;
    for (e, expr) in program.exprs.as_slice().iter().enumerate() {
        weight = weight
            .checked_add(cost(defs, meant[e], &expr.kind))
            .ok_or(AllocError)?;
    }
    Ok(weight)
}

/// The weight of a program without its expressions, where it is within a limit. Errors: want of memory, also where its
/// expressions weigh too much to be added to the limit.
pub(crate) fn weight_beside(
    alloc: Global,
    program: &Program,
    meanings: &Meanings,
    limit: u32,
) -> Result<Option<u32>, AllocError>
    requires meant { AreMeanings program.now meanings.now }
    requires own { OwnNames program.now }
    ensures { IfOk result (λ found. MatchOption found (limit < weight_beside program.now)
        (λ w. (w ≡ weight_beside program.now) × (w ≤ limit))) }
{
    let all = exprs_weight(program, meanings)?;
    let Ok(exprs) = u32::try_from(all) else {
        return Err(AllocError);
    };
    let Some(higher) = limit.checked_add(exprs) else {
        return Err(AllocError);
    };
    match weight_within(alloc, program, meanings, higher)? {
        Some(weight) => Ok(Some(weight - exprs)),
        None => Ok(None),
    }
}
