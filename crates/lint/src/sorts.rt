//! Bits where words are wanted, and words where bits are: rule E22.

use crate::view::{View, def_text, is_function};
use lint_words::{Findings, Note, Piece, op_word};
use mp_base::{List, Op, Place};
use mp_program::FormKind;
use mp_written::{Def, Expr, ExprKind, What};
use std::alloc::{AllocError, Global};

#[derive(Clone, Copy, PartialEq, Eq)]
enum Sort {
    Word,
    Bit,
}

/// A sort that is wanted, and why.
#[derive(Clone, Copy)]
struct Wish<'a> {
    sort: Sort,
    words: &'static str,
    name: &'a [u8],
}

fn is_of_bits(op: Op) -> bool {
    matches!(
        op,
        Op::And | Op::Or | Op::Nor | Op::Nand | Op::Xor | Op::Not
    )
}

fn operand_sort(op: Op) -> Sort {
    if is_of_bits(op) {
        Sort::Bit
    } else {
        Sort::Word
    }
}

fn result_sort(op: Op) -> Sort {
    let compares = matches!(op, Op::Bit | Op::Zero | Op::Equal | Op::Less);
    if compares || is_of_bits(op) {
        Sort::Bit
    } else {
        Sort::Word
    }
}

// The sort of what is defined; a function has none, but its uses have.
fn what_sort(what: &What) -> Option<Sort> {
    match what {
        What::Constant(_) | What::Register | What::Port(_) => Some(Sort::Word),
        What::Flag | What::Signal(_) => Some(Sort::Bit),
        _ => None,
    }
}

// The sort of an expression, where these are those of the bodies of functions.
fn sort_of(view: &View<'_>, functions: &[Option<Sort>], index: usize) -> Option<Sort> {
    let expr = view.program.exprs.as_slice().get(index)?;
    match &expr.kind {
        ExprKind::Number(_) => Some(Sort::Word),
        ExprKind::True | ExprKind::False => Some(Sort::Bit),
        ExprKind::Named(_) if view.is_argument(index) => Some(Sort::Word),
        ExprKind::Named(name) => what_sort(&view.known(name.bytes())?.what),
        ExprKind::Apply { op, .. } => Some(result_sort(*op)),
        ExprKind::Use { .. } => {
            let function = view.meaning(index)?.function?;
            functions.get(function as usize).copied()?
        }
    }
}

// The sorts of the bodies of functions: one uses those before it alone.
fn function_sorts(alloc: Global, view: &View<'_>) -> Result<Vec<Option<Sort>>, AllocError> {
    let mut sorts = Vec::new(alloc);
    for body in view.meanings.bodies.as_slice() {
        let sort = sort_of(view, sorts.as_slice(), body.expr as usize);
        sorts.push(sort)?;
    }
    Ok(sorts)
}

// What is defined by the name in an expression, or by the head of a use.
fn meant<'a>(view: &View<'a>, index: usize, kind: &ExprKind) -> Option<&'a Def> {
    match kind {
        ExprKind::Named(_) if view.is_argument(index) => None,
        ExprKind::Named(name) => view.known(name.bytes()),
        ExprKind::Use { name, .. } => view.known(name.bytes()),
        _ => None,
    }
}

fn sort_text(sort: Sort) -> &'static str {
    match sort {
        Sort::Word => "a word",
        Sort::Bit => "a bit",
    }
}

// What to write to have the other sort.
fn other_text(wanted: Sort) -> &'static str {
    match wanted {
        Sort::Word => "no operator makes a word of a bit: use `(cond (BIT (setq NAME 1)))`",
        Sort::Bit => "a bit of a word is `(bit NUMBER WORD)`; whether it is 0 is `(=0 WORD)`",
    }
}

fn judge_expr(
    findings: &mut Findings,
    view: &View<'_>,
    functions: &[Option<Sort>],
    index: u32,
    wish: Wish,
) -> Result<(), AllocError> {
    let Some(expr) = view.program.exprs.as_slice().get(index as usize) else {
        return Ok(());
    };
    let Some(found) = sort_of(view, functions, index as usize) else {
        return Ok(());
    };
    if found == wish.sort {
        return Ok(());
    }
    let words = [
        Piece::Text("this is "),
        Piece::Text(sort_text(found)),
        Piece::Text(", and "),
        Piece::Text(sort_text(wish.sort)),
        Piece::Text(" is wanted "),
        Piece::Text(wish.words),
        Piece::Quoted(wish.name),
    ];
    let help = [Piece::Text(other_text(wish.sort))];
    let note = Note::new(&words).helped(&help);
    match meant(view, index as usize, &expr.kind) {
        Some(def) => findings.broken(22, expr.place, note.beside(def.place, def_text(def))),
        None => findings.broken(22, expr.place, note),
    }
}

// The name of a process or function, at a place where only others may stand.
fn judge_name(
    findings: &mut Findings,
    view: &View<'_>,
    name: &[u8],
    place: Place,
) -> Result<(), AllocError> {
    let function = match view.known(name) {
        Some(def) => is_function(def),
        None => false,
    };
    let what = if function {
        " is a function, which has a value where it is used: `(NAME WORD ..)`"
    } else if view.is_process(name) {
        " is a process, which has no value"
    } else {
        return Ok(());
    };
    let words = [Piece::Quoted(name), Piece::Text(what)];
    findings.broken(22, place, Note::new(&words).helped(&[Piece::Text("")]))
}

fn judge_all(
    findings: &mut Findings,
    view: &View<'_>,
    functions: &[Option<Sort>],
    args: &List<u32>,
    wish: Wish,
) -> Result<(), AllocError> {
    for arg in args.as_slice() {
        judge_expr(findings, view, functions, *arg, wish)?;
    }
    Ok(())
}

fn judge_operands(
    findings: &mut Findings,
    view: &View<'_>,
    functions: &[Option<Sort>],
    index: usize,
    expr: &Expr,
) -> Result<(), AllocError> {
    match &expr.kind {
        ExprKind::Named(_) if view.is_argument(index) => Ok(()),
        ExprKind::Named(name) => judge_name(findings, view, name.bytes(), expr.place),
        ExprKind::Apply { op, args, .. } => {
            let wish = Wish {
                sort: operand_sort(*op),
                words: "as an operand of ",
                name: op_word(*op).as_bytes(),
            };
            judge_all(findings, view, functions, args, wish)
        }
        ExprKind::Use { name, args, .. } => {
            let wish = Wish {
                sort: Sort::Word,
                words: "as an operand of ",
                name: name.bytes(),
            };
            judge_all(findings, view, functions, args, wish)
        }
        _ => Ok(()),
    }
}

fn judge_setting(
    findings: &mut Findings,
    view: &View<'_>,
    functions: &[Option<Sort>],
    target: &[u8],
    value: u32,
) -> Result<(), AllocError> {
    let Some(def) = view.known(target) else {
        return Ok(());
    };
    let Some(sort) = what_sort(&def.what) else {
        return Ok(());
    };
    let wish = Wish {
        sort,
        words: "as the value of ",
        name: target,
    };
    judge_expr(findings, view, functions, value, wish)
}

/// Adds where a program breaks rule E22.
///
/// # Errors
/// Want of memory.
pub(crate) fn find_sorts(
    alloc: Global,
    findings: &mut Findings,
    view: &View<'_>,
) -> Result<(), AllocError> {
    let sorts = function_sorts(alloc, view)?;
    let functions = sorts.as_slice();
    for (index, expr) in view.program.exprs.as_slice().iter().enumerate() {
        judge_operands(findings, view, functions, index, expr)?;
    }
    for form in view.program.forms.as_slice() {
        match &form.kind {
            FormKind::Set { target, at, value } => {
                judge_name(findings, view, target.bytes(), *at)?;
                judge_setting(findings, view, functions, target.bytes(), *value)?;
            }
            FormKind::Cond(branches) => {
                for branch in branches.as_slice() {
                    let wish = Wish {
                        sort: Sort::Bit,
                        words: "as a guard of ",
                        name: b"cond",
                    };
                    judge_expr(findings, view, functions, branch.guard, wish)?;
                }
            }
            _ => {}
        }
    }
    Ok(())
}
