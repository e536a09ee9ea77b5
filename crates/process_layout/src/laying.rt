//! How the cells of a program are laid out.

ghost use Rattle.std.specs.Prelude.{◌≡◌, IfOk, position};
ghost use Rattle.mp_program.specs.Names.{is_reset};
ghost use Rattle.mp_program.specs.Reads.{IsOrder};
ghost use Rattle.process_plan.specs.Plan.{IsResetCell};
ghost use Rattle.process_plan.specs.Roles.{AreCells};
ghost use Rattle.process_layout.specs.Layouts.{HaveCells, IsLayoutOf, IsOrderOf};

use crate::calls::calling_forms;
use crate::laid::Laid;
use crate::layout::Layout;
use crate::places::lay_processes;
use crate::values::lay_definitions;
use mp_base::{List, NoMemory};
use mp_program::laws::sound;
use mp_program::{Def, Program};
use process_plan::Role;
use std::alloc::Global;

/// The cells of a program.
fn laid_out(alloc: Global, program: &Program) -> Result<Laid, NoMemory>
    ensures { IfOk result (λ laid. AreCells program.now laid.roles laid.cells) }
{
    sound(program);
    let defs = program.defs.as_slice();
    let processes = program.processes.as_slice();
    let calling = calling_forms(alloc, program)?;
    let laid = lay_definitions(alloc, defs)?;
    lay_processes(alloc, laid, calling.as_slice(), processes)
}

/// The cells of definitions in an order, each of which has one.
fn order_of(alloc: Global, laid: &Laid, order: &[u32]) -> Result<List<u32>, NoMemory>
    requires { HaveCells laid.now.roles order.now }
    ensures { IfOk result (IsOrderOf laid.now.roles order.now) }
{
    let mut cells = List::new(alloc);
    for definition in order {
        let Some(cell) = laid.cell(Role::Value(*definition)) else {
            unreachable!();
        };
        cells.push(cell)?;
    }
    Ok(cells)
}

/// The first definition that is the signal input `reset`.
fn reset_at(defs: &[Def]) -> Option<usize>
    ensures { result ≡ position is_reset defs.now }
{
    defs.iter().position(Def::is_reset)
}

/// The cell of the input `reset`, where there is one.
fn reset_of(program: &Program, laid: &Laid) -> Result<Option<u32>, NoMemory>
    requires { AreCells program.now laid.now.roles laid.now.cells }
    ensures { IfOk result (IsResetCell program.now laid.now.cells) }
{
    let Some(index) = reset_at(program.defs.as_slice()) else {
        return Ok(None);
    };
    let Ok(index) = u32::try_from(index) else {
        return Err(NoMemory);
    };
    Ok(laid.cell(Role::Value(index)))
}

/// The cells of a program whose definitions can be evaluated in an order.
///
/// # Errors
///
/// `NoMemory`.
pub fn layout_of(alloc: Global, program: &Program, order: &[u32]) -> Result<Layout, NoMemory>
    requires { IsOrder program.now order.now }
    ensures { IfOk result (IsLayoutOf program.now order.now) }
{
    let laid = laid_out(alloc, program)?;
    let order = order_of(alloc, &laid, order)?;
    let reset = reset_of(program, &laid)?;
    let Laid {
        cells,
        roles,
        index,
    } = laid;
    Ok(Layout {
        cells,
        roles,
        order,
        reset,
        index,
    })
}
