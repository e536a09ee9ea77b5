//! Functions and uses of them: rules E21 at the head of a use, and E37 to E39.

use crate::defects::{is_operator, operator_like, without_value};
use crate::names::is_enough;
use crate::view::{View, def_text, is_function};
use lint_words::{Findings, Note, Piece, foreign, is_like};
use mp_base::Place;
use mp_written::{Arg, Def, Expr, ExprKind, What};
use std::alloc::{AllocError, Global};
use std::collections::BTreeMap;

const DEFINE: &str = "define it, as in `(def NAME function (NAME ..) EXPRESSION)`";

fn function_like<'a>(view: &View<'a>, name: &[u8]) -> Option<&'a Def> {
    view.program
        .defs
        .as_slice()
        .iter()
        .find(|def| is_function(def) && is_like(def.name.bytes(), name))
}

// The head of a use that nothing has as its name.
fn tell_unknown(
    findings: &mut Findings,
    view: &View<'_>,
    place: Place,
    name: &[u8],
    note: Note<'_>,
) -> Result<(), AllocError> {
    let other = foreign(name);
    if !other.is_empty() {
        return findings.broken(21, place, note.helped(&[Piece::Text(other)]));
    }
    if let Some(word) = operator_like(name) {
        let help = [
            Piece::Text("did you mean "),
            Piece::Quoted(word.as_bytes()),
            Piece::Text("?"),
        ];
        return findings.broken(21, place, note.helped(&help));
    }
    match function_like(view, name) {
        Some(def) => {
            let help = [
                Piece::Text("did you mean "),
                Piece::Quoted(def.name.bytes()),
                Piece::Text("?"),
            ];
            findings.broken(
                21,
                place,
                note.beside(def.place, "this has a name like it")
                    .helped(&help),
            )
        }
        None => findings.broken(21, place, note.helped(&[Piece::Text(DEFINE)])),
    }
}

// The head of a use that names no function that may be used there.
fn tell_head(
    findings: &mut Findings,
    view: &View<'_>,
    place: Place,
    name: &[u8],
) -> Result<(), AllocError> {
    if is_enough(findings) {
        return Ok(());
    }
    let form = without_value(name);
    if !form.is_empty() {
        let words = [Piece::Quoted(name), Piece::Text(form)];
        return findings.broken(21, place, Note::new(&words).helped(&[Piece::Text(DEFINE)]));
    }
    let words = [
        Piece::Quoted(name),
        Piece::Text(" names no function that may be used here"),
    ];
    let note = Note::new(&words);
    match view.known(name) {
        Some(def) if is_function(def) => findings.broken(
            21,
            place,
            note.beside(def.place, "this stands no earlier").helped(&[Piece::Text(
                "a function uses those alone that are defined before it",
            )]),
        ),
        Some(def) => findings.broken(
            21,
            place,
            note.beside(def.place, def_text(def))
                .helped(&[Piece::Text(DEFINE)]),
        ),
        None => tell_unknown(findings, view, place, name, note),
    }
}

// Rule E37.
fn judge_count(
    findings: &mut Findings,
    view: &View<'_>,
    function: u32,
    expr: &Expr,
    name: &[u8],
    found: usize,
) -> Result<(), AllocError> {
    let Some(body) = view.meanings.bodies.as_slice().get(function as usize) else {
        return Ok(());
    };
    if body.args as usize == found {
        return Ok(());
    }
    let words = [
        Piece::Quoted(name),
        Piece::Text(" takes operands: "),
        Piece::Number(u64::from(body.args)),
        Piece::Text("; here: "),
        Piece::Number(found as u64),
    ];
    let note = Note::new(&words);
    match view.known(name) {
        Some(def) => findings.broken(37, expr.place, note.beside(def.place, "defined here")),
        None => findings.broken(37, expr.place, note),
    }
}

// Rule E38 at a name that is something else.
fn judge_argument(
    findings: &mut Findings,
    view: &View<'_>,
    arg: &Arg,
    first: Option<Place>,
) -> Result<(), AllocError> {
    let name = arg.name.bytes();
    if name == b"t".as_slice() || name == b"f".as_slice() {
        let words = [Piece::Quoted(name), Piece::Text(" is a truth value")];
        return findings.broken(38, arg.place, Note::new(&words));
    }
    if let Some(def) = view.known(name) {
        let words = [
            Piece::Quoted(name),
            Piece::Text(" is "),
            Piece::Text(def_text(def)),
        ];
        let note = Note::new(&words).beside(def.place, "defined here");
        return findings.broken(38, arg.place, note);
    }
    if view.is_process(name) {
        let words = [Piece::Quoted(name), Piece::Text(" is a process")];
        return findings.broken(38, arg.place, Note::new(&words));
    }
    match first {
        Some(first) => {
            let words = [Piece::Quoted(name), Piece::Text(" again")];
            let note = Note::new(&words).beside(first, "the first one");
            findings.broken(38, arg.place, note)
        }
        None => Ok(()),
    }
}

// Rule E38 of a function.
fn judge_function(
    alloc: Global,
    findings: &mut Findings,
    view: &View<'_>,
    def: &Def,
    args: &[Arg],
) -> Result<(), AllocError> {
    if is_operator(def.name.bytes()) {
        let words = [
            Piece::Quoted(def.name.bytes()),
            Piece::Text(" is an operator"),
        ];
        findings.broken(38, def.place, Note::new(&words))?;
    }
    let mut seen: BTreeMap<&[u8], Place> = BTreeMap::new(alloc);
    for arg in args {
        let name = arg.name.bytes();
        let first = seen.get(&name).copied();
        if !is_enough(findings) {
            judge_argument(findings, view, arg, first)?;
        }
        if first.is_none() {
            seen.insert(name, arg.place)?;
        }
    }
    Ok(())
}

// Whether a body may name what is defined so, or breaks another rule by it.
fn is_for_bodies(def: &Def) -> bool {
    match &def.what {
        What::Constant(_) | What::Function { .. } => true,
        _ => false,
    }
}

// Rule E39 at a name in a body.
fn judge_inside(
    findings: &mut Findings,
    view: &View<'_>,
    place: Place,
    name: &[u8],
) -> Result<(), AllocError> {
    match view.known(name) {
        Some(def) if !is_for_bodies(def) => {
            let words = [
                Piece::Quoted(name),
                Piece::Text(" is "),
                Piece::Text(def_text(def)),
            ];
            let note = Note::new(&words).beside(def.place, "defined here");
            findings.broken(39, place, note)
        }
        _ => Ok(()),
    }
}

fn judge_expr(
    findings: &mut Findings,
    view: &View<'_>,
    index: usize,
    expr: &Expr,
) -> Result<(), AllocError> {
    let Some(meaning) = view.meaning(index) else {
        return Ok(());
    };
    match &expr.kind {
        ExprKind::Named(name) if meaning.owner.is_some() && meaning.argument.is_none() => {
            judge_inside(findings, view, expr.place, name.bytes())
        }
        ExprKind::Use { at, name, args } => match meaning.function {
            Some(function) => {
                let found = args.as_slice().len();
                judge_count(findings, view, function, expr, name.bytes(), found)
            }
            None => tell_head(findings, view, *at, name.bytes()),
        },
        _ => Ok(()),
    }
}

/// Adds where a program breaks rules E21 at a use, and E37 to E39.
///
/// # Errors
/// Want of memory.
pub(crate) fn find_uses(
    alloc: Global,
    findings: &mut Findings,
    view: &View<'_>,
) -> Result<(), AllocError> {
    for def in view.program.defs.as_slice() {
        if let What::Function { args, .. } = &def.what {
            judge_function(alloc, findings, view, def, args.as_slice())?;
        }
    }
    for (index, expr) in view.program.exprs.as_slice().iter().enumerate() {
        judge_expr(findings, view, index, expr)?;
    }
    Ok(())
}
