//! Labels and jumps: rules E28 to E32.

use crate::nest::Nest;
use lint_words::{Findings, Note, Piece, is_like};
use mp_base::Place;
use mp_program::{Form, FormKind, Label, Program};
use mp_transfers::{missing_stack, second_transfer, transfer_in_always, unknown_label};
use std::alloc::{AllocError, Global};
use std::collections::BTreeMap;

fn form_at(program: &Program, place: Place) -> Option<&Form> {
    program
        .forms
        .as_slice()
        .iter()
        .find(|form| form.place == place)
}

fn is_jump(kind: &FormKind) -> bool {
    matches!(kind, FormKind::Go(_) | FormKind::Call(_) | FormKind::Return)
}

fn label_like<'a>(program: &'a Program, name: &[u8]) -> Option<&'a Label> {
    for process in program.processes.as_slice() {
        let labels = process.labels.as_slice();
        if let Some(label) = labels
            .iter()
            .find(|label| is_like(label.name.bytes(), name))
        {
            return Some(label);
        }
    }
    None
}

// Rule E28.
fn tell_unknown(
    findings: &mut Findings,
    program: &Program,
    place: Place,
) -> Result<(), AllocError> {
    let name = match form_at(program, place).map(|form| &form.kind) {
        Some(FormKind::Go(name) | FormKind::Call(name)) => name.bytes(),
        _ => &[],
    };
    let words = [
        Piece::Text("no label "),
        Piece::Quoted(name),
        Piece::Text(" in the process that this stands in"),
    ];
    let note = Note::new(&words);
    match label_like(program, name) {
        Some(label) => findings.broken(28, place, note.beside(label.place, "a label like it")),
        None => findings.broken(28, place, note),
    }
}

// Rule E29 among the labels of a process.
fn judge_labels(
    alloc: Global,
    findings: &mut Findings,
    labels: &[Label],
) -> Result<(), AllocError> {
    let mut seen: BTreeMap<&[u8], Place> = BTreeMap::new(alloc);
    for label in labels {
        let name = label.name.bytes();
        match seen.get(&name) {
            Some(first) => {
                let words = [Piece::Quoted(name), Piece::Text(" again")];
                let note = Note::new(&words).beside(*first, "the first one");
                findings.broken(29, label.place, note)?;
            }
            None => {
                seen.insert(name, label.place)?;
            }
        }
    }
    Ok(())
}

// Rule E32.
fn tell_second(
    alloc: Global,
    findings: &mut Findings,
    program: &Program,
    place: Place,
) -> Result<(), AllocError> {
    let nest = Nest::of(alloc, program)?;
    let forms = program.forms.as_slice();
    let later = forms
        .iter()
        .position(|form| form.place == place)
        .unwrap_or(0);
    let words = [Piece::Text("this jump stands beside another")];
    let note = Note::new(&words);
    for (n, form) in forms.get(..later).unwrap_or(&[]).iter().enumerate() {
        if is_jump(&form.kind) && nest.is_beside(n, later) {
            return findings.broken(32, place, note.beside(form.place, "the other one"));
        }
    }
    findings.broken(32, place, note)
}

/// Adds where a program breaks rules E28 to E32.
///
/// # Errors
/// Want of memory.
pub(crate) fn find_jumps(
    alloc: Global,
    findings: &mut Findings,
    program: &Program,
) -> Result<(), AllocError> {
    if let Some(place) = unknown_label(alloc, program)? {
        tell_unknown(findings, program, place)?;
    }
    for process in program.processes.as_slice() {
        judge_labels(alloc, findings, process.labels.as_slice())?;
    }
    if let Some(place) = transfer_in_always(alloc, program)? {
        findings.broken(
            30,
            place,
            Note::new(&[Piece::Text("this stands in an `always`")]),
        )?;
    }
    if let Some(place) = missing_stack(alloc, program)? {
        findings.broken(31, place, Note::new(&[Piece::Text("this needs a stack")]))?;
    }
    if let Some(place) = second_transfer(alloc, program)? {
        tell_second(alloc, findings, program, place)?;
    }
    Ok(())
}
