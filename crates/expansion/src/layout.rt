//! The expressions of the expansion with the indices of their operands.

ghost use Rattle.std.specs.Prelude.{◌≡◌, ◌<◌, ◌≤◌, IfOk, OnOk, drop, length, map, reverse, take};
ghost use Rattle.std.specs.List.{AllByRecursion};
ghost use Rattle.mp_written.specs.Laying.{arity, laid, laid_kind};
ghost use Rattle.expansion.specs.declared.item.Piece as spec;
ghost use Rattle.expansion.specs.Walking.{piece_of};

use crate::item::Piece;
use mp_base::{List, Name};
use mp_program as plain;
use mp_rules::EXPR_LIMIT;
use mp_written as written;
use std::alloc::{AllocError, Global};

/// Takes some indices from a stack.
fn take_operands(alloc: Global, count: usize, stack: &mut Vec<u32>) -> Result<List<u32>, AllocError>
    ensures taken { IfOk result (λ operands. operands ≡ take count (reverse stack.old.items)) }
    ensures left { OnOk result (reverse stack.new.items ≡ drop count (reverse stack.old.items)) }
{
    let mut operands = List::new(alloc);
    for _ in 0..count {
        if let Some(operand) = stack.pop() {
            operands.push(operand)?;
        }
    }
    Ok(operands)
}

/// An expression of a kind with its operands from a stack.
fn laid_kind(
    alloc: Global,
    kind: &written::ExprKind,
    stack: &mut Vec<u32>,
) -> Result<plain::ExprKind, AllocError>
    ensures laid { IfOk result (λ k. k ≡ laid_kind kind.now (reverse stack.old.items)) }
    ensures left { OnOk result (reverse stack.new.items ≡ drop (arity kind.now) (reverse stack.old.items)) }
{
    match kind {
        written::ExprKind::Number(value) => Ok(plain::ExprKind::Number(*value)),
        written::ExprKind::Named(name) => {
            let name = Name::from_slice(alloc, name.bytes())?;
            Ok(plain::ExprKind::Named(name))
        }
        written::ExprKind::True => Ok(plain::ExprKind::True),
        written::ExprKind::False => Ok(plain::ExprKind::False),
        written::ExprKind::Apply { op, index, args } => Ok(plain::ExprKind::Apply {
            op: *op,
            index: *index,
            args: take_operands(alloc, args.len(), stack)?,
        }),
        written::ExprKind::Use { .. } => Ok(plain::ExprKind::Number(0)),
    }
}

/// The expressions that pieces are, from the last to the first: those that stand in no other are on a stack.
pub(crate) fn lay(
    alloc: Global,
    exprs: &[written::Expr],
    pieces: &[Piece],
) -> Result<List<plain::Expr>, AllocError>
    requires inside { AllByRecursion (λ (p : spec.Piece). p.expr < length exprs.now) pieces.now }
    requires few { length pieces.now ≤ EXPR_LIMIT }
    ensures { IfOk result (λ list. list ≡ (laid 0 (map (piece_of exprs.now) pieces.now)).exprs) }
{
    let mut backward = Vec::new(alloc);
    let mut stack = Vec::new(alloc);
    for i in (0..pieces.len()).rev() {
        let piece = pieces[i];
        let kind = laid_kind(alloc, &exprs[piece.expr as usize].kind, &mut stack)?;
        let place = piece.place;
        backward.push(plain::Expr { place, kind })?;
        stack.push(i as u32)?;
    }
    backward.reverse();
    Ok(List::from_vec(backward))
}
