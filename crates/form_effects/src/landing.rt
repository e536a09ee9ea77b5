//! Where the jumps of forms land.

ghost use Rattle.std.specs.Prelude.{◌≡◌, map, IfOk};
ghost use Rattle.mp_program.specs.Step.{place_of_label, wrapped};
ghost use Rattle.form_effects.specs.Linked.{landing_place, landings_in};

use mp_base::List;
use mp_program::{FormKind, Process, Program};
use std::alloc::{AllocError, Global};

// A place, or 0 where it is past the last form.
fn wrapped(process: &Process, place: usize) -> usize
    ensures { result ≡ wrapped process.now place }
{
    if place < process.forms.len() {
        place
    } else {
        0
    }
}

fn label_place(process: &Process, label: &[u8]) -> usize
    ensures { result ≡ place_of_label process.now process.now.labels label.now }
{
    for found in process.labels.as_slice() {
        if found.name.bytes() == label {
            return wrapped(process, found.before as usize);
        }
    }
    0
}

/// The place in a process to which a form jumps, or 0 where it jumps to no label.
fn landing_place(process: &Process, kind: &FormKind) -> usize
    ensures { result ≡ landing_place process.now kind.now }
{
    match kind {
        FormKind::Go(label) => label_place(process, label.bytes()),
        FormKind::Call(label) => label_place(process, label.bytes()),
        _ => 0,
    }
}

/// The same for each form.
fn landings_in(
    alloc: Global,
    program: &Program,
    process: &Process,
) -> Result<List<usize>, AllocError>
    ensures { IfOk result (λ list. list ≡ landings_in program.now process.now) }
{
    let mut list = List::new(alloc);
    for form in program.forms.as_slice() {
        list.push(landing_place(process, &form.kind))?;
    }
    Ok(list)
}

/// The same in each process.
pub(crate) fn landings(alloc: Global, program: &Program) -> Result<List<List<usize>>, AllocError>
    ensures { IfOk result (λ list. list ≡ map (landings_in program.now) program.now.processes) }
{
    let mut list = List::new(alloc);
    for process in program.processes.as_slice() {
        list.push(landings_in(alloc, program, process)?)?;
    }
    Ok(list)
}
