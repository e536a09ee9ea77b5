//! Gates of expressions.

ghost use Rattle.std.specs.Prelude.{◌≡◌, ◌<◌, [], false, true, if◌then◌else◌, max, All, IfOk, length};
ghost use Rattle.rtl_form.specs.Cost.{op_cost};
ghost use Rattle.rtl_form.specs.Operands.{gives_word, takes_words};
ghost use Rattle.mp_base.specs.Apply.{takes};
ghost use Rattle.bit_gates.specs.Adding.{HasRoom, IsPair};
ghost use Rattle.bit_gates.specs.Exprs.{IsExprMade, IsExprReady, IsNorOfBits, IsNorOfNegations, IsOpMade};
ghost use Rattle.bit_gates.specs.Rails.{AllBelow, IsNamed, swapped};
ghost use Rattle.bit_gates.specs.Size.{bit_expr_cost};

use crate::gates::{add_entry, add_exclusive, add_pair};
use crate::rails::{Rails, bits_of, named, negations_of};
use mp_base::{NoMemory, Op};
use nor_net::Net;
use rtl_form::RtlExpr;
use std::alloc::Global;

// The NOR of some bits, and the bit that it is the negation of.
fn lower_nor(
    alloc: Global,
    net: &mut Net,
    exprs: &[Option<Rails>],
    args: &[u32],
) -> Result<Rails, NoMemory>
    requires some { 0 < length args.now }
    requires named { All (IsNamed exprs.now) args.now }
    requires below { AllBelow (length net.old) exprs.now }
    requires room { HasRoom (max 2 (length args.now)) net.old }
    ensures { IfOk result (IsNorOfBits exprs.now args.now net.old net.new) }
{
    let inputs = bits_of(alloc, exprs, args)?;
    add_pair(alloc, net, inputs.as_slice())
}

// The AND of some bits, which is the NOR of their negations, and its negation.
fn lower_and(
    alloc: Global,
    net: &mut Net,
    exprs: &[Option<Rails>],
    args: &[u32],
) -> Result<Rails, NoMemory>
    requires some { 0 < length args.now }
    requires named { All (IsNamed exprs.now) args.now }
    requires below { AllBelow (length net.old) exprs.now }
    requires room { HasRoom (max 2 (length args.now)) net.old }
    ensures { IfOk result (IsNorOfNegations exprs.now args.now net.old net.new) }
{
    let inputs = negations_of(alloc, exprs, args)?;
    add_pair(alloc, net, inputs.as_slice())
}

// The bit of an operator on bits; where a word enters, an input.
fn lower_operator(
    alloc: Global,
    net: &mut Net,
    exprs: &[Option<Rails>],
    op: Op,
    args: &[u32],
) -> Result<Rails, NoMemory>
    requires operands { takes op (length args.now) ≡ true }
    requires bit { gives_word op ≡ false }
    requires named { takes_words op ≡ false → All (IsNamed exprs.now) args.now }
    requires below { AllBelow (length net.old) exprs.now }
    requires room { HasRoom (op_cost op (length args.now)) net.old }
    ensures { IfOk result (IsOpMade exprs.now op args.now net.old net.new) }
{
    match op {
        Op::And => lower_and(alloc, net, exprs, args),
        Op::Nand => Ok(lower_and(alloc, net, exprs, args)?.swapped()),
        Op::Nor => lower_nor(alloc, net, exprs, args),
        Op::Or => Ok(lower_nor(alloc, net, exprs, args)?.swapped()),
        Op::Xor => add_exclusive(alloc, net, named(exprs, args[0]), named(exprs, args[1])),
        Op::Not => Ok(named(exprs, args[0]).swapped()),
        _ => add_entry(alloc, net),
    }
}

// Whether an operator gives a word.
fn is_word(op: Op) -> bool
    ensures { result ≡ gives_word op }
{
    match op {
        Op::And => false,
        Op::Or => false,
        Op::Nor => false,
        Op::Nand => false,
        Op::Xor => false,
        Op::Not => false,
        Op::Bit => false,
        Op::Zero => false,
        Op::Equal => false,
        Op::Less => false,
        _ => true,
    }
}

// The bit of a constant.
fn lower_truth(alloc: Global, net: &mut Net, value: bool) -> Result<Rails, NoMemory>
    requires room { HasRoom 2 net.old }
    ensures { IfOk result (λ rails. IsPair [] net.old net.new (if value then rails else swapped rails)) }
{
    let rails = add_pair(alloc, net, &[])?;
    if value {
        Ok(rails)
    } else {
        Ok(rails.swapped())
    }
}

/// The bit of an expression, or nothing for a word.
pub fn lower_expr(
    alloc: Global,
    net: &mut Net,
    cells: &[Option<Rails>],
    exprs: &[Option<Rails>],
    expr: &RtlExpr,
) -> Result<Option<Rails>, NoMemory>
    requires ready { IsExprReady cells.now exprs.now expr.now }
    requires below { AllBelow (length net.old) exprs.now }
    requires room { HasRoom (bit_expr_cost expr.now) net.old }
    ensures { IfOk result (IsExprMade cells.now exprs.now expr.now net.old net.new) }
{
    match expr {
        RtlExpr::Number(_) => Ok(None),
        RtlExpr::Truth(value) => Ok(Some(lower_truth(alloc, net, *value)?)),
        RtlExpr::Cell(cell) => Ok(cells[*cell as usize]),
        RtlExpr::Apply { op, args, .. } => {
            if is_word(*op) {
                Ok(None)
            } else {
                Ok(Some(lower_operator(alloc, net, exprs, *op, args.as_slice())?))
            }
        }
    }
}
