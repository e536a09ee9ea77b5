//! The weight of expressions.

ghost use Rattle.std.specs.Prelude.{◌≡◌, ◌<◌, ◌^◌, length, min};
ghost use Rattle.std.specs.List.{sum_by};
ghost use Rattle.mp_program.specs.declared.program.Expr.{Expr};
ghost use Rattle.mp_program.specs.Weight.{is_constant, op_weight, expr_weight};
ghost use Rattle.name_meanings.specs.Meaning.{AreMeanings};
ghost use Rattle.mp_weight.specs.Weighing.{is_constant_at, expr_weight_of};

use crate::capped::plus;
use mp_base::Op;
use mp_program::{Def, ExprKind, Program, What};
use name_meanings::Meanings;

fn op_weight(op: Op, operands: u64) -> u64
    requires { operands < 2 ^ 63 }
    ensures { result ≡ op_weight op operands }
{
    match op {
        Op::Add => 12,
        Op::Sub => 14,
        Op::Inc | Op::Dec => 8,
        Op::WordAnd => 4,
        Op::WordOr | Op::Left | Op::Right => 3,
        Op::WordXor | Op::Xor => 6,
        Op::WordNot | Op::Not | Op::Bit => 2,
        Op::And | Op::Or | Op::Nor | Op::Nand => 2 + operands,
        Op::Zero => 5,
        Op::Equal | Op::Less => 10,
    }
}

fn is_constant(what: What) -> bool
    ensures { result ≡ is_constant what }
{
    match what {
        What::Constant(_) => true,
        _ => false,
    }
}

fn is_constant_at(defs: &[Def], index: u32) -> bool
    ensures { result ≡ is_constant_at defs.now index }
{
    match defs.get(index as usize) {
        Some(def) => is_constant(def.what),
        None => false,
    }
}

/// The weight of an expression without its arguments, where a name is that of the definition at an index.
fn expr_weight(defs: &[Def], meaning: u32, kind: &ExprKind) -> u64
    ensures { result ≡ expr_weight_of defs.now meaning kind.now }
{
    match kind {
        ExprKind::Number(_) | ExprKind::True | ExprKind::False => 1,
        ExprKind::Named(_) => { if is_constant_at(defs, meaning) { 1 } else { 0 } }
        ExprKind::Apply { op, args, .. } => {
            let args = args.as_slice();
            op_weight(*op, args.len() as u64)
        }
    }
}

/// The weight of all expressions.
pub fn exprs_weight(program: &Program, meanings: &Meanings, cap: u64) -> u64
    requires { AreMeanings program.now meanings.now }
    ensures { result ≡ min cap (sum_by (λ (e : Expr). expr_weight program.now e.kind) program.now.exprs) }
{
    let defs = program.defs.as_slice();
    let meant = meanings.exprs.as_slice();
    let mut weight = 0;
    for (e, expr) in program.exprs.as_slice().iter().enumerate() {
        weight = plus(cap, weight, expr_weight(defs, meant[e], &expr.kind));
    }
    weight
}
