//! Expressions, one behind another.

ghost use Rattle.std.specs.Prelude.{◌≡◌, ◌∷◌, [], IfOk};
ghost use Rattle.mp_base.specs.declared.op.Op.TheVariants.{And, Not};
ghost use Rattle.rtl_form.specs.declared.rtl.RtlExpr.TheVariants.{Apply};
ghost use Rattle.process_enables.specs.Adding.{IsPut};

use mp_base::{List, NoMemory, Op};
use rtl_form::RtlExpr;
use std::alloc::Global;

/// Adds an expression, and answers its index.
pub(crate) fn put(exprs: &mut List<RtlExpr>, expr: RtlExpr) -> Result<u32, NoMemory>
    ensures { IfOk result (IsPut exprs.old expr exprs.new) }
{
    let Ok(index) = u32::try_from(exprs.len()) else {
        return Err(NoMemory);
    };
    exprs.push(expr)?;
    Ok(index)
}

/// The negation of an expression.
pub(crate) fn negation(alloc: Global, expr: u32) -> Result<RtlExpr, NoMemory>
    ensures { IfOk result (λ y. y ≡ Apply Not 0 (expr ∷ [])) }
{
    let mut args = List::new(alloc);
    args.push(expr)?;
    Ok(RtlExpr::Apply {
        op: Op::Not,
        index: 0,
        args,
    })
}

// What is 1 where both of these are.
fn both(alloc: Global, first: u32, second: u32) -> Result<RtlExpr, NoMemory>
    ensures { IfOk result (λ y. y ≡ Apply And 0 (first ∷ second ∷ [])) }
{
    let mut args = List::new(alloc);
    args.push(first)?;
    args.push(second)?;
    Ok(RtlExpr::Apply {
        op: Op::And,
        index: 0,
        args,
    })
}

/// Adds what is 1 where both of these are.
pub(crate) fn put_both(
    alloc: Global,
    exprs: &mut List<RtlExpr>,
    first: u32,
    second: u32,
) -> Result<u32, NoMemory>
    ensures { IfOk result (IsPut exprs.old (Apply And 0 (first ∷ second ∷ [])) exprs.new) }
{
    let expr = both(alloc, first, second)?;
    put(exprs, expr)
}

/// Adds the negation of an expression.
pub(crate) fn put_negation(
    alloc: Global,
    exprs: &mut List<RtlExpr>,
    expr: u32,
) -> Result<u32, NoMemory>
    ensures { IfOk result (IsPut exprs.old (Apply Not 0 (expr ∷ [])) exprs.new) }
{
    let negated = negation(alloc, expr)?;
    put(exprs, negated)
}
