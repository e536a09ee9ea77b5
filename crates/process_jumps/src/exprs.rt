//! Expressions that are added.

ghost use Rattle.std.specs.Prelude.{◌≡◌, ◌++◌, OnOk, IfOk, option_to_list};
ghost use Rattle.process_jumps.specs.Growth.{IsPut, IsNegationMade, AreNegationsMade, IsFallMade, IsUnionMade};

use mp_base::{List, NoMemory, Op};
use rtl_form::RtlExpr;
use std::alloc::Global;

/// Adds an expression, and answers its index.
///
/// # Errors
///
/// `NoMemory`, also where an index takes more than 32 bits.
pub fn put(exprs: &mut List<RtlExpr>, expr: RtlExpr) -> Result<u32, NoMemory>
    ensures { IfOk result (IsPut exprs.old exprs.new expr) }
{
    let Ok(index) = u32::try_from(exprs.len()) else {
        return Err(NoMemory);
    };
    exprs.push(expr)?;
    Ok(index)
}

/// Adds an item, where there is one.
///
/// # Errors
///
/// `NoMemory`.
pub fn add<T: Drop>(list: &mut List<T>, item: Option<T>) -> Result<(), NoMemory>
    ensures { OnOk result (list.new ≡ list.old ++ option_to_list item) }
{
    if let Some(item) = item {
        list.push(item)?;
    }
    Ok(())
}

fn negation(alloc: Global, exprs: &mut List<RtlExpr>, expr: u32) -> Result<u32, NoMemory>
    ensures { IfOk result (IsNegationMade exprs.old exprs.new expr) }
{
    let mut args = List::new(alloc);
    args.push(expr)?;
    put(
        exprs,
        RtlExpr::Apply {
            op: Op::Not,
            index: 0,
            args,
        },
    )
}

// An expression, and then the negations of others.
fn with_negations(
    alloc: Global,
    exprs: &mut List<RtlExpr>,
    first: u32,
    others: &[u32],
) -> Result<List<u32>, NoMemory>
    ensures { IfOk result (AreNegationsMade exprs.old exprs.new first others.now) }
{
    let mut args = List::new(alloc);
    args.push(first)?;
    for other in others {
        args.push(negation(alloc, exprs, *other)?)?;
    }
    Ok(args)
}

/// The expression that is 1 where an enable is and none of the moves.
pub(crate) fn fall_of(
    alloc: Global,
    exprs: &mut List<RtlExpr>,
    enable: u32,
    moves: &[u32],
) -> Result<u32, NoMemory>
    ensures { IfOk result (IsFallMade exprs.old exprs.new enable moves.now) }
{
    if moves.is_empty() {
        return Ok(enable);
    }
    if moves.contains(&enable) {
        return Ok(1);
    }
    let args = with_negations(alloc, exprs, enable, moves)?;
    put(
        exprs,
        RtlExpr::Apply {
            op: Op::And,
            index: 0,
            args,
        },
    )
}

/// The expression that is 1 where one of these is, if there are any.
pub(crate) fn union_of(
    exprs: &mut List<RtlExpr>,
    guards: List<u32>,
) -> Result<Option<u32>, NoMemory>
    ensures { IfOk result (IsUnionMade exprs.old exprs.new guards) }
{
    match guards.len() {
        0 => Ok(None),
        1 => Ok(Some(*guards.at(0))),
        _ => {
            let expr = RtlExpr::Apply {
                op: Op::Or,
                index: 0,
                args: guards,
            };
            Ok(Some(put(exprs, expr)?))
        }
    }
}
