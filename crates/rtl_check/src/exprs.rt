//! Whether expressions fit.

ghost use Rattle.std.specs.Prelude.{◌↔◌, ◌≤◌, IsTrue};
ghost use Rattle.rtl_form.specs.Sound.{ExprFits, HasSort, IndexFits, IsSort};
ghost use Rattle.rtl_check.specs.Parts.{ApplyFits, ArgFits, ArgsFit};
ghost use Rattle.rtl_check.specs.Reading.{ExprsFit};

use crate::operands::{gives_word, takes, takes_words};
use mp_base::{List, Op};
use rtl_form::{Cell, Rtl, RtlExpr};

// Whether an expression is a word, or else a bit.
fn is_sort(cells: &[Cell], expr: &RtlExpr, word: bool) -> bool
    ensures { IsTrue result ↔ IsSort cells.now expr.now word }
{
    match expr {
        RtlExpr::Number(_) => word,
        RtlExpr::Truth(_) => !word,
        RtlExpr::Cell(cell) => match cells.get(*cell as usize) {
            Some(cell) => cell.word == word,
            None => false,
        },
        RtlExpr::Apply { op, .. } => gives_word(*op) == word,
    }
}

/// Whether there is an expression at this index, which is a word, or else a bit.
pub(crate) fn has_sort(rtl: &Rtl, expr: u32, word: bool) -> bool
    ensures { IsTrue result ↔ HasSort rtl.now expr word }
{
    match rtl.exprs.as_slice().get(expr as usize) {
        Some(expr) => is_sort(rtl.cells.as_slice(), expr, word),
        None => false,
    }
}

// Whether an argument of the expression at an index stands before it, and is a word, or else a bit.
fn arg_fits(rtl: &Rtl, index: usize, arg: u32, word: bool) -> bool
    ensures { IsTrue result ↔ ArgFits rtl.now index word arg }
{
    (arg as usize) < index && has_sort(rtl, arg, word)
}

// The same of all arguments.
fn args_fit(rtl: &Rtl, index: usize, args: &[u32], words: bool) -> bool
    ensures { IsTrue result ↔ ArgsFit rtl.now index words args.now }
{
    for k in 0..args.len() {
        if !arg_fits(rtl, index, args[k], words) {
            return false;
        }
    }
    true
}

// Whether an operator has an index that it takes, where it takes one.
fn index_fits(width: u8, op: Op, index: u64) -> bool
    ensures { IsTrue result ↔ IndexFits width op index }
{
    match op {
        Op::Bit => index < width as u64,
        _ => true,
    }
}

// Whether the expression at an index that applies an operator fits.
fn apply_fits(rtl: &Rtl, index: usize, op: Op, bit: u64, args: &List<u32>) -> bool
    ensures { IsTrue result ↔ ApplyFits rtl.now index op bit args.now }
{
    let args = args.as_slice();
    takes(op, args.len())
        && index_fits(rtl.width, op, bit)
        && args_fit(rtl, index, args, takes_words(op))
}

// Whether the expression at an index fits.
fn expr_fits(rtl: &Rtl, index: usize, expr: &RtlExpr) -> bool
    requires { rtl.now.width ≤ 64 }
    ensures { IsTrue result ↔ ExprFits rtl.now index expr.now }
{
    match expr {
        RtlExpr::Number(number) => (*number as u128) < 1 << rtl.width,
        RtlExpr::Truth(_) => true,
        RtlExpr::Cell(cell) => (*cell as usize) < rtl.cells.len(),
        RtlExpr::Apply {
            op,
            index: bit,
            args,
        } => apply_fits(rtl, index, *op, *bit, args),
    }
}

/// Whether all expressions fit.
pub(crate) fn exprs_fit(rtl: &Rtl) -> bool
    requires { rtl.now.width ≤ 64 }
    ensures { IsTrue result ↔ ExprsFit rtl.now }
{
    let exprs = rtl.exprs.as_slice();
    for index in 0..exprs.len() {
        if !expr_fits(rtl, index, &exprs[index]) {
            return false;
        }
    }
    true
}
