//! Warnings: what a program may do, and is hardly meant to.

use crate::names::what_text;
use crate::nest::Nest;
use lint_words::{Findings, Grade, Note, Piece};
use mp_program::{Def, ExprKind, FormKind, Program, Way, What};
use std::alloc::{AllocError, Global};
use std::collections::BTreeSet;

type Words<'a> = BTreeSet<&'a [u8]>;

fn names_read<'a>(alloc: Global, program: &'a Program) -> Result<Words<'a>, AllocError> {
    let mut names = BTreeSet::new(alloc);
    for expr in program.exprs.as_slice() {
        if let ExprKind::Named(name) = &expr.kind {
            names.insert(name.bytes())?;
        }
    }
    Ok(names)
}

fn names_set<'a>(alloc: Global, program: &'a Program) -> Result<Words<'a>, AllocError> {
    let mut names = BTreeSet::new(alloc);
    for form in program.forms.as_slice() {
        if let FormKind::Set { target, .. } = &form.kind {
            names.insert(target.bytes())?;
        }
    }
    Ok(names)
}

fn is_read_inside(what: What) -> bool {
    !what.is_supply() && !what.is_output()
}

fn is_set_inside(what: What) -> bool {
    what.is_stored() || what.is_driven()
}

fn warn(findings: &mut Findings, def: &Def, words: &'static str) -> Result<(), AllocError> {
    let what = [
        Piece::Quoted(def.name.bytes()),
        Piece::Text(" is "),
        Piece::Text(what_text(def.what)),
    ];
    findings.add(Grade::Warning(words), def.place, Note::new(&what))
}

fn find_unused(
    alloc: Global,
    findings: &mut Findings,
    program: &Program,
) -> Result<(), AllocError> {
    let read = names_read(alloc, program)?;
    let set = names_set(alloc, program)?;
    for def in program.defs.as_slice() {
        let name = def.name.bytes();
        if is_read_inside(def.what) && !def.is_reset() && !read.contains(name) {
            warn(findings, def, "nothing reads this")?;
        }
        if is_set_inside(def.what) && !set.contains(name) {
            warn(findings, def, "nothing sets this: it is always 0")?;
        }
    }
    Ok(())
}

// The register or flag that a form sets.
fn stored_by<'a>(program: &Program, kind: &'a FormKind) -> Option<&'a [u8]> {
    let FormKind::Set { target, .. } = kind else {
        return None;
    };
    let name = target.bytes();
    let defs = program.defs.as_slice();
    let def = defs.iter().find(|def| def.name.bytes() == name)?;
    if def.what.is_stored() {
        Some(name)
    } else {
        None
    }
}

// Whether one of two forms is active whenever the other is.
fn is_sure(nest: &Nest, form: usize, other: usize) -> bool {
    let (a, b) = (nest.seat(form), nest.seat(other));
    a == b || a.is_always() || b.is_always()
}

// The forms that were looked at before, of which one sets the same.
const LOOKED_AT: usize = 300;

fn find_set_twice(
    alloc: Global,
    findings: &mut Findings,
    program: &Program,
) -> Result<(), AllocError> {
    let nest = Nest::of(alloc, program)?;
    let forms = program.forms.as_slice();
    for (n, form) in forms.iter().enumerate().take(LOOKED_AT) {
        let Some(name) = stored_by(program, &form.kind) else {
            continue;
        };
        let before = forms.get(..n).unwrap_or(&[]);
        let first = before.iter().enumerate().find(|(m, other)| {
            stored_by(program, &other.kind) == Some(name) && is_sure(&nest, *m, n)
        });
        if let Some((_, other)) = first {
            let words = [
                Piece::Text("both set "),
                Piece::Quoted(name),
                Piece::Text(" in one clock: it takes the bitwise OR of their values"),
            ];
            findings.add(
                Grade::Warning("what is stored is set twice in one clock"),
                form.place,
                Note::new(&words).beside(other.place, "the other one"),
            )?;
        }
    }
    Ok(())
}

/// Adds warnings of a program that breaks no rule.
///
/// # Errors
/// Want of memory.
pub(crate) fn find_warnings(
    alloc: Global,
    findings: &mut Findings,
    program: &Program,
) -> Result<(), AllocError> {
    find_unused(alloc, findings, program)?;
    find_set_twice(alloc, findings, program)
}
