//! Names that are defined twice, or not at all, or set although they are inputs: rules E20, E21 and E27.

use crate::view::{View, def_text, is_function};
use lint_words::{Findings, Note, Piece, is_like};
use mp_base::{Name, Place};
use mp_names::NameTable;
use mp_program::{Def, FormKind, Program, Way, What};
use mp_written::ExprKind;
use std::alloc::AllocError;

/// What is defined, with its article.
pub(crate) fn what_text(what: What) -> &'static str {
    match what {
        What::Power => "power",
        What::Ground => "ground",
        What::Phia => "phia",
        What::Phib => "phib",
        What::Phic => "phic",
        What::Constant(_) => "a constant",
        What::Register => "a register",
        What::Flag => "a flag",
        What::Port(Way::Input) => "an input port",
        What::Port(Way::Output) => "an output port",
        What::Port(Way::Internal) => "an internal port",
        What::Signal(Way::Input) => "an input signal",
        What::Signal(Way::Output) => "an output signal",
        What::Signal(Way::Internal) => "an internal signal",
    }
}

// How many findings are enough: further names aren't looked up.
const ENOUGH: usize = 200;

/// Whether so much is told that further names needn't be looked up.
pub(crate) fn is_enough(findings: &Findings) -> bool {
    findings.as_slice().len() >= ENOUGH
}

fn is_reserved(name: &[u8]) -> bool {
    matches!(
        name,
        b"t" | b"f" | b"vdd" | b"gnd" | b"phia" | b"phib" | b"phic"
    )
}

// The place of the definition or process at an offset.
fn naming_at(program: &Program, offset: u64) -> Option<Place> {
    let defs = program.defs.as_slice();
    if let Some(def) = defs.iter().find(|def| def.place.offset == offset) {
        return Some(def.place);
    }
    let processes = program.processes.as_slice();
    processes
        .iter()
        .find(|process| process.place.offset == offset)
        .map(|process| process.place)
}

fn judge_naming(
    findings: &mut Findings,
    program: &Program,
    names: &NameTable<'_>,
    name: &[u8],
    place: Place,
) -> Result<(), AllocError> {
    if is_reserved(name) {
        let words = [Piece::Quoted(name), Piece::Text(" is reserved")];
        return findings.broken(20, place, Note::new(&words));
    }
    let first = names.named(name).least.unwrap_or(place.offset);
    if first >= place.offset || is_enough(findings) {
        return Ok(());
    }
    let words = [
        Piece::Quoted(name),
        Piece::Text(" has a definition before this"),
    ];
    let note = Note::new(&words);
    match naming_at(program, first) {
        Some(other) => findings.broken(20, place, note.beside(other, "the first one")),
        None => findings.broken(20, place, note),
    }
}

// A supply or a phase that was defined before.
fn judge_supply(findings: &mut Findings, before: &[Def], def: &Def) -> Result<(), AllocError> {
    match before.iter().find(|other| other.what == def.what) {
        Some(other) => {
            let words = [
                Piece::Text(what_text(def.what)),
                Piece::Text(" is defined a second time"),
            ];
            findings.broken(
                20,
                def.place,
                Note::new(&words).beside(other.place, "the first one"),
            )
        }
        None => Ok(()),
    }
}

// Rule E20.
fn find_repeated(
    findings: &mut Findings,
    program: &Program,
    names: &NameTable<'_>,
) -> Result<(), AllocError> {
    let defs = program.defs.as_slice();
    for (index, def) in defs.iter().enumerate() {
        if def.what.is_supply() {
            judge_supply(findings, defs.get(..index).unwrap_or(&[]), def)?;
        } else {
            judge_naming(findings, program, names, def.name.bytes(), def.place)?;
        }
    }
    for process in program.processes.as_slice() {
        judge_naming(
            findings,
            program,
            names,
            process.name.bytes(),
            process.place,
        )?;
    }
    Ok(())
}

// Whether a name looks as if it should be a number.
fn is_like_number(name: &[u8]) -> bool {
    match name {
        [b'0'..=b'9', ..] => true,
        [b'-' | b'+', b'0'..=b'9', ..] => true,
        _ => false,
    }
}

// A name that is used, at a place.
fn judge_use<'a>(
    findings: &mut Findings,
    program: &'a Program,
    names: &NameTable<'_>,
    name: &'a [u8],
    place: Place,
) -> Result<(), AllocError> {
    let named = names.named(name);
    if named.process || named.first.is_some() || is_enough(findings) {
        return Ok(());
    }
    let words = [Piece::Quoted(name), Piece::Text(" isn't defined")];
    if is_like_number(name) {
        return findings.broken(
            21,
            place,
            Note::new(&words).helped(&[Piece::Text(
                "numbers are decimal and without a sign: digits alone",
            )]),
        );
    }
    let defs = program.defs.as_slice();
    match defs.iter().find(|def| is_like(def.name.bytes(), name)) {
        Some(def) => findings.broken(
            21,
            place,
            Note::new(&words)
                .beside(def.place, "this has a name like it")
                .helped(&[
                    Piece::Text("did you mean "),
                    Piece::Quoted(def.name.bytes()),
                    Piece::Text("?"),
                ]),
        ),
        None => findings.broken(21, place, Note::new(&words)),
    }
}

// Rule E27 at the target of a `setq`.
fn judge_target(
    findings: &mut Findings,
    view: &View<'_>,
    names: &NameTable<'_>,
    target: &Name,
    place: Place,
) -> Result<(), AllocError> {
    match view.known(target.bytes()) {
        Some(def) if !is_function(def) && names.named(target.bytes()).unset => {
            let words = [
                Piece::Quoted(target.bytes()),
                Piece::Text(" is "),
                Piece::Text(def_text(def)),
            ];
            findings.broken(
                27,
                place,
                Note::new(&words).beside(def.place, "defined here"),
            )
        }
        _ => Ok(()),
    }
}

/// Adds where a program breaks rules E20, E21 and E27, by its frame.
///
/// # Errors
/// Want of memory.
pub(crate) fn find_names(
    findings: &mut Findings,
    view: &View<'_>,
    frame: &Program,
    names: &NameTable<'_>,
) -> Result<(), AllocError> {
    find_repeated(findings, frame, names)?;
    for (index, expr) in view.program.exprs.as_slice().iter().enumerate() {
        if let ExprKind::Named(name) = &expr.kind {
            if !view.is_argument(index) {
                judge_use(findings, frame, names, name.bytes(), expr.place)?;
            }
        }
    }
    for form in view.program.forms.as_slice() {
        if let FormKind::Set { target, at, .. } = &form.kind {
            judge_use(findings, frame, names, target.bytes(), *at)?;
            judge_target(findings, view, names, target, *at)?;
        }
    }
    Ok(())
}
