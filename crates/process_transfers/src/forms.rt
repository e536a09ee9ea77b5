//! The transfers of forms.

ghost use Rattle.std.specs.Prelude.{◌≡◌, ◌<◌, ◌≤◌, ◌+◌, length, IfOk, OnOk};
ghost use Rattle.mp_program.specs.Names.{index_of};
ghost use Rattle.mp_program.specs.Step.{wrapped, place_of_label};
ghost use Rattle.mp_rules.specs.Breaking.{IsUnbroken};
ghost use Rattle.mp_base.specs.Entries.{IsAt};
ghost use Rattle.process_plan.specs.Bill.{forms_bill, transfers_cost};
ghost use Rattle.process_plan.specs.Enables.{copy_of};
ghost use Rattle.process_plan.specs.Roles.{AreCells};
ghost use Rattle.process_transfers.specs.Wants.{IsFound, Serves, SetsWithin, lands_in};
ghost use Rattle.process_transfers.specs.Wants.{SetWants, LandWants, FormWants, WantsAt};

use mp_base::{List, NoMemory};
use mp_program::laws::sound;
use mp_program::{Def, FormKind, Process, Program};
use process_jumps::add;
use process_layout::Layout;
use process_plan::{Enable, Origin, Role};
use rtl_form::Transfer;

// The index of the first definition of a name, or the number of definitions where there is none.
fn index_of(defs: &[Def], name: &[u8]) -> usize
    ensures { result ≡ index_of defs.now name.now }
{
    for (index, def) in defs.iter().enumerate() {
        if def.name.bytes() == name {
            return index;
        }
    }
    defs.len()
}

fn wrapped(process: &Process, place: u32) -> usize
    ensures { result ≡ wrapped process.now place }
{
    let place = place as usize;
    if place < process.forms.len() {
        place
    } else {
        0
    }
}

fn place_of_label(process: &Process, label: &[u8]) -> usize
    ensures { result ≡ place_of_label process.now process.now.labels label.now }
{
    for found in process.labels.as_slice() {
        if found.name.bytes() == label {
            return wrapped(process, found.before);
        }
    }
    0
}

fn copy_of(program: &Program, expr: u32) -> Result<u32, NoMemory>
    requires { expr < length program.now.exprs }
    ensures { IfOk result (λ copy. copy ≡ copy_of program.now expr) }
{
    let behind = program.exprs.len() - expr as usize;
    let Ok(copy) = u32::try_from(behind) else {
        return Err(NoMemory);
    };
    let Some(copy) = copy.checked_add(1) else {
        return Err(NoMemory);
    };
    Ok(copy)
}

// The transfer of a `setq`.
fn set_transfer(
    program: &Program,
    layout: &Layout,
    target: &[u8],
    value: u32,
    guard: u32,
) -> Result<Option<Transfer>, NoMemory>
    requires { value < length program.now.exprs }
    ensures { IfOk result (IsFound (SetWants program.now layout.now.roles target.now value guard)) }
{
    let Ok(definition) = u32::try_from(index_of(program.defs.as_slice(), target)) else {
        return Err(NoMemory);
    };
    let Some(target) = layout.cell(Role::Value(definition)) else {
        return Ok(None);
    };
    Ok(Some(Transfer {
        guard,
        target,
        value: copy_of(program, value)?,
    }))
}

// The transfer of a `go` or `call`.
fn land_transfer(
    program: &Program,
    layout: &Layout,
    label: &[u8],
    enable: Enable,
) -> Result<Option<Transfer>, NoMemory>
    ensures { IfOk result (IsFound (LandWants program.now layout.now.roles label.now enable)) }
{
    let Origin::At { process, .. } = enable.origin else {
        return Ok(None);
    };
    let Some(owner) = program.processes.as_slice().get(process as usize) else {
        return Ok(None);
    };
    let Ok(place) = u32::try_from(place_of_label(owner, label)) else {
        return Err(NoMemory);
    };
    let Some(target) = layout.cell(Role::Placed { process, place }) else {
        return Ok(None);
    };
    Ok(Some(Transfer {
        guard: 0,
        target,
        value: enable.expr,
    }))
}

fn form_transfer(
    program: &Program,
    layout: &Layout,
    kind: &FormKind,
    enable: Option<Enable>,
) -> Result<Option<Transfer>, NoMemory>
    requires { SetsWithin program.now kind.now }
    ensures { IfOk result (IsFound (FormWants program.now layout.now.roles kind.now enable)) }
{
    let Some(enable) = enable else {
        return Ok(None);
    };
    match kind {
        FormKind::Set { target, value, .. } => {
            set_transfer(program, layout, target.bytes(), *value, enable.expr)
        }
        FormKind::Go(label) => land_transfer(program, layout, label.bytes(), enable),
        FormKind::Call(label) => land_transfer(program, layout, label.bytes(), enable),
        _ => Ok(None),
    }
}

/// Adds the transfers of all `setq`, and those of all `go` and `call` to where they land.
pub(crate) fn form_transfers(
    program: &Program,
    layout: &Layout,
    enables: &[Option<Enable>],
    transfers: &mut List<Transfer>,
) -> Result<(), NoMemory>
    requires unbroken { IsUnbroken program.now }
    requires cells { AreCells program.now layout.now.roles layout.now.cells }
    requires size { length enables.now ≡ length program.now.forms }
    ensures served { OnOk result (Serves (WantsAt program.now layout.now.roles enables.now)
        (length program.now.forms) transfers.old transfers.new) }
    ensures cost { OnOk result (transfers_cost layout.now.cells transfers.new
        ≤ transfers_cost layout.now.cells transfers.old + (forms_bill program.now.defs program.now.forms
        + lands_in (length program.now.processes) program.now.forms enables.now)) }
{
    sound(program);
    for index in 0..program.forms.len() {
        let form = &program.forms.as_slice()[index];
        let found = form_transfer(program, layout, &form.kind, enables[index])?;
        add(transfers, found)?;
    }
    Ok(())
}
