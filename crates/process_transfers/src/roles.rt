//! The transfers to and from the cells of processes.

ghost use Rattle.std.specs.Prelude.{◌≡◌, ◌<◌, ◌≤◌, ◌+◌, length, count_by, IfOk, OnOk};
ghost use Rattle.mp_base.specs.Entries.{IsAt};
ghost use Rattle.process_plan.specs.Bill.{transfers_cost};
ghost use Rattle.process_plan.specs.declared.role.Role as roles;
ghost use Rattle.process_transfers.specs.Control.{IsReadingMade, AreReadingsMade, IsControl, PlaceFits};
ghost use Rattle.process_transfers.specs.Wants.{IsFound, Serves, IsRead, IsPushed, IsPopped, is_moved};
ghost use Rattle.process_transfers.specs.Wants.{FallWants, PushWants, PopWants, BackWants, RoleWants, CellWants};

use mp_base::{List, NoMemory};
use mp_program::Program;
use process_jumps::{Jumps, add, put};
use process_layout::Layout;
use process_plan::Role;
use rtl_form::{RtlExpr, Transfer};
use std::alloc::Global;

/// What the transfers of processes are made of: the jumps of each process, the expressions of its places, and for each
/// cell of an entry of its stack an expression that reads the cell.
#[derive(Drop)]
pub(crate) struct Control {
    pub jumps: List<Jumps>,
    pub places: List<List<u32>>,
    pub readings: List<u32>,
}

/// What a process does.
#[derive(Clone, Copy, PartialEq, Eq, Debug)]
pub(crate) enum Motion {
    /// It goes on from a place.
    Fall,
    /// It pushes an entry.
    Push,
    /// It pops an entry.
    Pop,
    /// It goes to the place that was popped.
    Back,
}

fn reading_of(role: Role, cell: u32, exprs: &mut List<RtlExpr>) -> Result<u32, NoMemory>
    ensures { IfOk result (IsReadingMade role cell exprs.old exprs.new) }
{
    match role {
        Role::Stacked { .. } => put(exprs, RtlExpr::Cell(cell)),
        _ => Ok(0),
    }
}

/// An expression for each cell, which reads it where it is that of an entry of a stack.
pub(crate) fn readings_of(
    alloc: Global,
    roles: &[Role],
    exprs: &mut List<RtlExpr>,
) -> Result<List<u32>, NoMemory>
    ensures { IfOk result (AreReadingsMade roles.now (length roles.now) exprs.old exprs.new) }
{
    let Ok(count) = u32::try_from(roles.len()) else {
        return Err(NoMemory);
    };
    let mut readings = List::new(alloc);
    for cell in 0..count {
        readings.push(reading_of(roles[cell as usize], cell, exprs)?)?;
    }
    Ok(readings)
}

fn fall(control: &Control, cell: u32, process: u32, place: u32) -> Transfer
    requires { PlaceFits control.now process place }
    ensures { FallWants control.now cell process place result }
{
    Transfer {
        guard: 0,
        target: cell,
        value: *control.jumps.at(process).falls.at(place - 1),
    }
}

// The expression that reads the cell of a role.
fn reading(layout: &Layout, control: &Control, role: Role) -> Option<u32>
    requires { length control.now.readings ≡ length layout.now.roles }
    ensures { IsFound (IsRead layout.now.roles control.now role) result }
{
    let cell = layout.cell(role)?;
    Some(*control.readings.at(cell))
}

// What is pushed to an entry: that the process is at the place before, or the entry above.
fn pushed(layout: &Layout, control: &Control, process: u32, level: u32, place: u32) -> Option<u32>
    requires fits { PlaceFits control.now process place }
    requires readings { length control.now.readings ≡ length layout.now.roles }
    ensures { IsFound (IsPushed layout.now.roles control.now process level place) result }
{
    if level == 0 {
        return Some(*control.places.at(process).at(place - 1));
    }
    let role = Role::Stacked {
        process,
        level: level - 1,
        place,
    };
    reading(layout, control, role)
}

// What is popped to an entry: the entry below, or nothing.
fn popped(
    program: &Program,
    layout: &Layout,
    control: &Control,
    process: u32,
    level: u32,
    place: u32,
) -> Option<u32>
    requires inside { process < length program.now.processes }
    requires low { level < 8 }
    requires readings { length control.now.readings ≡ length layout.now.roles }
    ensures { IsFound (IsPopped program.now layout.now.roles control.now process level place) result }
{
    let level = level + 1;
    if program.processes.at(process).depth == u64::from(level) {
        return Some(1);
    }
    let role = Role::Stacked {
        process,
        level,
        place,
    };
    reading(layout, control, role)
}

fn push(
    layout: &Layout,
    control: &Control,
    cell: u32,
    process: u32,
    level: u32,
    place: u32,
) -> Option<Transfer>
    requires fits { PlaceFits control.now process place }
    requires readings { length control.now.readings ≡ length layout.now.roles }
    ensures { IsFound (PushWants layout.now.roles control.now cell process level place) result }
{
    let guard = control.jumps.at(process).calls?;
    let value = pushed(layout, control, process, level, place)?;
    Some(Transfer {
        guard,
        target: cell,
        value,
    })
}

fn pop(
    program: &Program,
    layout: &Layout,
    control: &Control,
    cell: u32,
    process: u32,
    level: u32,
    place: u32,
) -> Option<Transfer>
    requires inside { process < length program.now.processes }
    requires fits { PlaceFits control.now process place }
    requires low { level < 8 }
    requires readings { length control.now.readings ≡ length layout.now.roles }
    ensures { IsFound (PopWants program.now layout.now.roles control.now cell process level place) result }
{
    let guard = control.jumps.at(process).returns?;
    let value = popped(program, layout, control, process, level, place)?;
    Some(Transfer {
        guard,
        target: cell,
        value,
    })
}

fn back(layout: &Layout, control: &Control, cell: u32, process: u32, place: u32) -> Option<Transfer>
    requires fits { PlaceFits control.now process place }
    requires inside { cell < length control.now.readings }
    ensures { IsFound (BackWants layout.now.roles control.now cell process place) result }
{
    let guard = control.jumps.at(process).returns?;
    let target = layout.cell(Role::Placed { process, place })?;
    Some(Transfer {
        guard,
        target,
        value: *control.readings.at(cell),
    })
}

fn role_transfer(
    program: &Program,
    layout: &Layout,
    control: &Control,
    motion: Motion,
    cell: u32,
) -> Option<Transfer>
    requires inside { cell < length layout.now.roles }
    requires control { IsControl program.now layout.now.roles layout.now.cells control.now }
    ensures { (s : roles.Role) → IsAt layout.now.roles cell s
        → IsFound (RoleWants program.now layout.now.roles control.now motion cell s) result }
{
    match *layout.roles.at(cell) {
        Role::Value(_) => None,
        Role::Placed { process, place } => match motion {
            Motion::Fall => Some(fall(control, cell, process, place)),
            _ => None,
        },
        Role::Stacked {
            process,
            level,
            place,
        } => match motion {
            Motion::Fall => None,
            Motion::Push => push(layout, control, cell, process, level, place),
            Motion::Pop => pop(program, layout, control, cell, process, level, place),
            Motion::Back if level == 0 => back(layout, control, cell, process, place),
            Motion::Back => None,
        },
    }
}

/// Adds the transfers of a motion of all processes.
pub(crate) fn motion_transfers(
    program: &Program,
    layout: &Layout,
    control: &Control,
    motion: Motion,
    transfers: &mut List<Transfer>,
) -> Result<(), NoMemory>
    requires control { IsControl program.now layout.now.roles layout.now.cells control.now }
    ensures served { OnOk result (Serves (CellWants program.now layout.now.roles control.now motion)
        (length layout.now.roles) transfers.old transfers.new) }
    ensures cost { OnOk result (transfers_cost layout.now.cells transfers.new
        ≤ transfers_cost layout.now.cells transfers.old + count_by (is_moved motion) layout.now.roles) }
{
    let Ok(count) = u32::try_from(layout.roles.len()) else {
        return Err(NoMemory);
    };
    for cell in 0..count {
        add(
            transfers,
            role_transfer(program, layout, control, motion, cell),
        )?;
    }
    Ok(())
}
