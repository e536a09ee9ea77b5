//! The cells of processes.

ghost use Rattle.std.specs.Prelude.{◌≡◌, ◌-◌, ◌++◌, ℕ, IfOk, false, length, map, slice_index_or};
ghost use Rattle.process_layout.specs.Holding.{KeepCells};
ghost use Rattle.process_plan.specs.declared.role.Role.TheVariants.{Stacked};
ghost use Rattle.process_layout.specs.Laying.{
  entry_roles,
  place_roles,
  process_roles,
  processes_roles,
  returns_to,
};

use crate::calls::is_calling;
use crate::laid::Laid;
use mp_base::{List, NoMemory};
use mp_program::Process;
use process_plan::Role;
use rtl_form::{Cell, CellKind};
use std::alloc::Global;

const STORED_BIT: Cell = Cell {
    word: false,
    kind: CellKind::Stored,
};

/// The cells with those of the places of a process with so many forms.
fn lay_places(before: Laid, process: u32, forms: u32) -> Result<Laid, NoMemory>
    ensures roles { IfOk result (λ after. after.roles ≡ before.roles ++ place_roles process (forms - 1)) }
    ensures cells { IfOk result (KeepCells before) }
{
    let mut laid = before;
    for place in 1..forms {
        laid = laid.with(Role::Placed { process, place }, STORED_BIT)?;
    }
    Ok(laid)
}

/// The cells with those of one level of a stack, each of whose entries may be one of some places.
fn lay_level(before: Laid, process: u32, level: u32, places: &[u32]) -> Result<Laid, NoMemory>
    ensures roles { IfOk result (λ after. after.roles ≡ before.roles ++ map (Stacked process level) places.now) }
    ensures cells { IfOk result (KeepCells before) }
{
    let mut laid = before;
    for place in places {
        let role = Role::Stacked {
            process,
            level,
            place: *place,
        };
        laid = laid.with(role, STORED_BIT)?;
    }
    Ok(laid)
}

/// The cells with those of a stack.
fn lay_stack(before: Laid, process: u32, depth: u64, places: &[u32]) -> Result<Laid, NoMemory>
    ensures roles { IfOk result (λ after. after.roles ≡ before.roles ++ entry_roles process places.now depth) }
    ensures cells { IfOk result (KeepCells before) }
{
    // without a call a stack may be as deep as a number goes
    if places.is_empty() {
        return Ok(before);
    }
    let Ok(depth) = u32::try_from(depth) else {
        return Err(NoMemory);
    };
    let mut laid = before;
    for level in 0..depth {
        laid = lay_level(laid, process, level, places)?;
    }
    Ok(laid)
}

/// The places of a process that stand behind a form with a call.
fn returns_to(alloc: Global, calling: &[bool], forms: &[u32]) -> Result<List<u32>, NoMemory>
    ensures { IfOk result (λ places. places
        ≡ returns_to (λ f. slice_index_or calling.now f false) forms.now (length forms.now - 1)) }
{
    let Ok(count) = u32::try_from(forms.len()) else {
        return Err(NoMemory);
    };
    let mut places = List::new(alloc);
    for place in 1..count {
        if is_calling(calling, forms[place as usize - 1]) {
            places.push(place)?;
        }
    }
    Ok(places)
}

/// The cells with those of a process.
fn lay_process(
    alloc: Global,
    before: Laid,
    calling: &[bool],
    index: u32,
    process: &Process,
) -> Result<Laid, NoMemory>
    ensures roles { IfOk result (λ after. after.roles
        ≡ before.roles ++ process_roles (λ f. slice_index_or calling.now f false) index process.now) }
    ensures cells { IfOk result (KeepCells before) }
{
    let forms = process.forms.as_slice();
    let Ok(count) = u32::try_from(forms.len()) else {
        return Err(NoMemory);
    };
    let places = returns_to(alloc, calling, forms)?;
    let laid = lay_places(before, index, count)?;
    lay_stack(laid, index, process.depth, places.as_slice())
}

/// The cells with those of all processes, where it is said which forms have a call.
pub(crate) fn lay_processes(
    alloc: Global,
    before: Laid,
    calling: &[bool],
    processes: &[Process],
) -> Result<Laid, NoMemory>
    ensures roles { IfOk result (λ after. after.roles
        ≡ before.roles
        ++ processes_roles (λ f. slice_index_or calling.now f false) processes.now (length processes.now)) }
    ensures cells { IfOk result (KeepCells before) }
{
    let Ok(count) = u32::try_from(processes.len()) else {
        return Err(NoMemory);
    };
    let mut laid = before;
    for index in 0..count {
        laid = lay_process(alloc, laid, calling, index, &processes[index as usize])?;
    }
    Ok(laid)
}
