//! From a program to guarded transfers.

ghost use Rattle.std.specs.Prelude.{IfOk};
ghost use Rattle.mp_program.specs.Pads.{ArePadsOf};
ghost use Rattle.mp_program.specs.Reads.{IsOrder};
ghost use Rattle.mp_rules.specs.Breaking.{IsUnbroken};
ghost use Rattle.process_plan.specs.Same.{IsSame};
ghost use Rattle.process_layout.specs.Layouts.{IsLayoutOf};
ghost use Rattle.process_sequencer.specs.Stillness.{IsStill, IsMoving};

use crate::idle::is_still;
use mp_base::{List, NoMemory, Pads};
use mp_checker::Checked;
use mp_program::Program;
use mp_rules::laws::own_names;
use process_enables::enable_forms;
use process_layout::{Layout, layout_of};
use process_plan::laws::{built_is_same, idle_is_same};
use process_transfers::transfers_of;
use rtl_form::Rtl;
use std::alloc::Global;

/// The cells of a program in which nothing is ever written.
fn with_cells(alloc: Global, program: &Program, order: &[u32], layout: Layout, pads: Pads) -> Rtl
    requires unbroken { IsUnbroken program.now }
    requires ordered { IsOrder program.now order.now }
    requires laid { IsLayoutOf program.now order.now layout }
    requires padded { ArePadsOf program.now pads }
    requires still { IsStill program.now }
    ensures { IsSame program.now result }
{
    let exprs = List::new(alloc);
    let transfers = List::new(alloc);
    let rtl = Rtl {
        width: program.width,
        pads,
        cells: layout.cells,
        exprs,
        transfers,
        order: layout.order,
        reset: layout.reset,
    };
    idle_is_same(program, order, &rtl);
    rtl
}

/// The cells and the transfers of a program in which something is written.
fn with_transfers(
    alloc: Global,
    program: &Program,
    order: &[u32],
    layout: Layout,
    pads: Pads,
) -> Result<Rtl, NoMemory>
    requires unbroken { IsUnbroken program.now }
    requires ordered { IsOrder program.now order.now }
    requires laid { IsLayoutOf program.now order.now layout }
    requires padded { ArePadsOf program.now pads }
    requires moving { IsMoving program.now }
    ensures { IfOk result (IsSame program.now) }
{
    own_names(program);
    let enabling = enable_forms(alloc, program, &layout)?;
    let made = transfers_of(alloc, program, &layout, enabling)?;
    let rtl = Rtl {
        width: program.width,
        pads,
        cells: layout.cells,
        exprs: made.exprs,
        transfers: made.transfers,
        order: layout.order,
        reset: layout.reset,
    };
    built_is_same(program, order, &rtl);
    Ok(rtl)
}

/// The same of any program.
fn sequence_of(
    alloc: Global,
    program: &Program,
    order: &[u32],
    pads: &Pads,
) -> Result<Rtl, NoMemory>
    requires unbroken { IsUnbroken program.now }
    requires ordered { IsOrder program.now order.now }
    requires padded { ArePadsOf program.now pads.now }
    ensures { IfOk result (IsSame program.now) }
{
    let copy = pads.copy(alloc)?;
    let layout = layout_of(alloc, program, order)?;
    if is_still(program) {
        Ok(with_cells(alloc, program, order, layout, copy))
    } else {
        with_transfers(alloc, program, order, layout, copy)
    }
}

/// Guarded transfers that fit together, have the pads of a checked program, show what it shows in each clock, and cost
/// no more than it weighs.
///
/// # Errors
///
/// `NoMemory`, also where an index would leave its type.
pub fn sequence(alloc: Global, checked: &Checked) -> Result<Rtl, NoMemory>
    ensures { IfOk result (IsSame checked.now.program) }
{
    checked.unbroken();
    let program = checked.program();
    let order = checked.order();
    let pads = checked.pads();
    sequence_of(alloc, program, order.as_slice(), pads)
}
