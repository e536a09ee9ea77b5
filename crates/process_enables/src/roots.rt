//! The enables of the forms that stand in no other form.

ghost use Rattle.std.specs.Prelude.{◌≡◌, ◌<◌, ℕ, List as Items, Contains, None, length, replicate, OnOk, IfOk};
ghost use Rattle.mp_program.specs.declared.program.Process.{Process};
ghost use Rattle.mp_base.specs.Entries.{IsAt};
ghost use Rattle.process_enables.specs.Roots.{AssignsPlaces, AreRootsBefore};

use crate::forms::{assign, assign_all};
use mp_base::{List, NoMemory};
use mp_program::Program;
use mp_program::laws::sound;
use process_plan::{Enable, Origin};
use std::alloc::Global;

// An entry for each form, with no enable in it.
fn blank(alloc: Global, count: usize) -> Result<List<Option<Enable>>, NoMemory>
    ensures { IfOk result (λ enables. enables ≡ replicate count None) }
{
    let vec = Vec::from_elem(alloc, None, count)?;
    Ok(List::from_vec(vec))
}

// Gives the forms of a process the expressions of their places.
fn assign_places(
    enables: &mut List<Option<Enable>>,
    process: u32,
    forms: &[u32],
    places: &[u32],
) -> Result<(), NoMemory>
    requires inside { (f : ℕ) → Contains forms.now f → f < length enables.old }
    requires size { length places.now ≡ length forms.now }
    ensures { OnOk result (AssignsPlaces process forms.now places.now enables.old enables.new) }
{
    for (index, form) in forms.iter().enumerate() {
        let Ok(place) = u32::try_from(index) else {
            return Err(NoMemory);
        };
        let origin = Origin::At { process, place };
        let expr = places[index];
        assign(enables, *form, Enable { origin, expr })?;
    }
    Ok(())
}

/// The enables of the forms that stand in no other form, where each process has an expression for each of its places.
///
/// # Errors
///
/// `NoMemory`.
pub(crate) fn roots(
    alloc: Global,
    program: &Program,
    places: &List<List<u32>>,
) -> Result<List<Option<Enable>>, NoMemory>
    requires count { length places.now ≡ length program.now.processes }
    requires sizes { (k : ℕ) (q : Process) (es : Items ℕ) → IsAt program.now.processes k q → IsAt places.now k es
        → length es ≡ length q.forms }
    ensures { IfOk result (AreRootsBefore program.now places.now (length program.now.processes)) }
{
    sound(program);
    let mut enables = blank(alloc, program.forms.len())?;
    let always = Enable {
        origin: Origin::Always,
        expr: 0,
    };
    assign_all(&mut enables, program.always.as_slice(), always)?;
    let Ok(count) = u32::try_from(program.processes.len()) else {
        return Err(NoMemory);
    };
    for process in 0..count {
        let forms = program.processes.at(process).forms.as_slice();
        assign_places(&mut enables, process, forms, places.at(process).as_slice())?;
    }
    Ok(enables)
}
