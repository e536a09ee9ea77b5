//! Rule E28: labels that aren't there.

ghost use Rattle.std.specs.Prelude.{◌≡◌, ◌⊎◌, ◌↔◌, ◌<◌, ◌≤◌, ℕ, List, Option, Some, None, IfOk, IsTrue, length};
ghost use Rattle.std.specs.Prelude.{slice_index, true};
ghost use Rattle.mp_program.specs.declared.program.Form.{Form as FormValue};
ghost use Rattle.mp_program.specs.declared.program.Label.{Label as LabelValue};
ghost use Rattle.mp_rules.specs.Breaking.{IsEarliest};
ghost use Rattle.mp_base.specs.Entries.{IsAt};
ghost use Rattle.mp_rules.specs.Rules.{E28};
ghost use Rattle.mp_transfers.specs.Labels.{has, IsLabel, IsAstray};

use crate::labels::names_of;
use crate::marks::{Span, mark};
use mp_base::{List, Place};
use mp_program::laws::sound;
use mp_program::{FormKind, Label, Program};
use mp_rules::earlier;
use std::alloc::{AllocError, Global};
use std::collections::BTreeSet;

/// Whether a form goes to a label that isn't among these.
fn is_astray<'a>(names: &BTreeSet<&'a [u8]>, kind: &'a FormKind) -> bool
    ensures { (labels : List LabelValue) → ((x : List ℕ) → (has names.now x ≡ true) ↔ IsLabel labels x)
        → IsTrue result ↔ IsAstray labels kind.now }
{
    match kind {
        FormKind::Go(label) | FormKind::Call(label) => !names.contains(&label.bytes()),
        _ => false,
    }
}

/// The earliest of what was found and the forms of this number that go to a label that isn't among these.
fn astray_in<'a>(
    program: &'a Program,
    labels: &[Label],
    names: &BTreeSet<&'a [u8]>,
    marks: &[usize],
    number: usize,
    span: Span,
    found: Option<Place>,
) -> Option<Place>
    requires size { length marks.now ≡ length program.now.forms }
    requires inside { span.end ≤ length program.now.forms }
    requires names { (x : List ℕ) → (has names.now x ≡ true) ↔ IsLabel labels.now x }
    ensures { IsEarliest (λ at. (found ≡ Some at)
        ⊎ ((f : ℕ) × (y : FormValue) × (span.from ≤ f) × (f < span.end) × (slice_index marks.now f ≡ number)
        × IsAt program.now.forms f y × IsAstray labels.now y.kind × (at ≡ y.place))) result }
{
    let forms = program.forms.as_slice();
    let mut found = found;
    for f in span.from..span.end {
        if marks[f] == number && is_astray(names, &forms[f].kind) {
            found = earlier(found, forms[f].place);
        }
    }
    found
}

/// Rule E28: the earliest `go` or `call` in a process that names no label of it.
pub fn unknown_label(alloc: Global, program: &Program) -> Result<Option<Place>, AllocError>
    ensures { IfOk result (IsEarliest (E28 program.now)) }
{
    sound(program);
    let vec = Vec::from_elem(alloc, 0, program.forms.len())?;
    let mut marks: List<usize> = List::from_vec(vec);
    let mut found = None;
    for (k, process) in program.processes.as_slice().iter().enumerate() {
        let labels = process.labels.as_slice();
        let names = names_of(alloc, labels)?;
        let span = mark(program, process.forms.as_slice(), k + 1, &mut marks);
        found = astray_in(
            program,
            labels,
            &names,
            marks.as_slice(),
            k + 1,
            span,
            found,
        );
    }
    Ok(found)
}
