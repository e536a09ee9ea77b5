//! What expressions weigh, beside their operands.

ghost use Rattle.std.specs.Prelude.{◌≡◌, ◌<◌, ◌^◌, IfOk, length};
ghost use Rattle.mp_program.specs.Weight.{op_weight};
ghost use Rattle.written_counts.specs.declared.tally.Measure.TheVariants.{Weight};
ghost use Rattle.written_counts.specs.Tallies.{AreCosts};
ghost use Rattle.written_counts.specs.Costs.{name_cost, cost_of, NamesOf};

use mp_base::{List, Op};
use mp_written::{Def, ExprKind, Program, What};
use name_meanings::Meanings as Names;
use std::alloc::{AllocError, Global};

/// An operator, with so many operands.
pub(crate) fn op_cost(op: Op, operands: u64) -> u64
    requires { operands < 2 ^ 63 }
    ensures { result ≡ op_weight op operands }
{
    match op {
        Op::Add => 12,
        Op::Sub => 14,
        Op::Inc | Op::Dec => 8,
        Op::WordAnd => 4,
        Op::WordOr | Op::Left | Op::Right => 3,
        Op::WordXor | Op::Xor => 6,
        Op::WordNot | Op::Not | Op::Bit => 2,
        Op::And | Op::Or | Op::Nor | Op::Nand => 2 + operands,
        Op::Zero => 5,
        Op::Equal | Op::Less => 10,
    }
}

// A name that means the definition at an index: a constant weighs one.
fn name_cost(defs: &[Def], index: u32) -> u64
    ensures { result ≡ name_cost defs.now index }
{
    match defs.get(index as usize) {
        Some(def) => {
            if matches!(def.what, What::Constant(_)) {
                1
            } else {
                0
            }
        }
        None => 0,
    }
}

// An expression of a kind, where a name means the definition at an index.
fn cost(defs: &[Def], index: u32, kind: &ExprKind) -> u64
    ensures { result ≡ cost_of defs.now index kind.now }
{
    match kind {
        ExprKind::Number(_) | ExprKind::True | ExprKind::False => 1,
        ExprKind::Named(_) => name_cost(defs, index),
        ExprKind::Apply { op, args, .. } => {
            let args = args.as_slice();
            op_cost(*op, args.len() as u64)
        }
        ExprKind::Use { .. } => 0,
    }
}

/// What each expression weighs, by what the names of the frame mean.
pub(crate) fn weights(
    alloc: Global,
    program: &Program,
    names: &Names,
) -> Result<List<u64>, AllocError>
    requires { NamesOf program.now names.now }
    ensures { IfOk result (AreCosts Weight program.now) }
{
    let defs = program.defs.as_slice();
    let meant = names.exprs.as_slice();
    let mut costs = List::new(alloc);
    for (e, expr) in program.exprs.as_slice().iter().enumerate() {
        costs.push(cost(defs, meant[e], &expr.kind))?;
    }
    Ok(costs)
}
