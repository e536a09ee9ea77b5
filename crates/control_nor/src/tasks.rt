//! Expressions and driven cells, one after the other.

ghost use Rattle.std.specs.Prelude.{◌≡◌, ◌<◌, ◌+◌, false, All, IfOk, OnOk, length};
ghost use Rattle.mp_base.specs.Entries.{IsAt};
ghost use Rattle.bit_gates.specs.Rails.{AllBelow};
ghost use Rattle.control_nor.specs.Tasks.{IsCellMade, IsTaskDone, IsTaskReady};
ghost use Rattle.rtl_form.specs.Sound.{IsSound};
ghost use Rattle.bit_gates.specs.Adding.{HasRoom};
ghost use Rattle.control_nor.specs.Done.{AreDone};
ghost use Rattle.control_nor.specs.Progress.{IsBegun, cost_left};
ghost use Rattle.task_schedule.specs.Schedule.{IsSchedule};
ghost use Rattle.bit_gates.specs.Cells.{IsTransferNamed, transfers_to};

use crate::names::Bits;
use bit_gates::{Rails, lower_driven, lower_expr, select_transfers};
use mp_base::{List, NoMemory};
use nor_net::Net;
use rtl_form::{Cell, Rtl};
use std::alloc::Global;
use task_schedule::Task;

// A driven cell, or nothing for a word.
fn lower_cell(
    alloc: Global,
    rtl: &Rtl,
    net: &mut Net,
    index: u32,
    cell: Cell,
    exprs: &[Option<Rails>],
) -> Result<Option<Rails>, NoMemory>
    requires named { cell.word ≡ false → All (IsTransferNamed exprs.now) (transfers_to rtl.now.transfers index) }
    requires room { cell.word ≡ false → HasRoom (2 + length (transfers_to rtl.now.transfers index)) net.old }
    requires below { AllBelow (length net.old) exprs.now }
    ensures { IfOk result (IsCellMade rtl.now exprs.now index cell net.old net.new) }
{
    if cell.word {
        return Ok(None);
    }
    let transfers = select_transfers(alloc, rtl.transfers.as_slice(), index)?;
    let rails = lower_driven(alloc, net, exprs, transfers.as_slice())?;
    Ok(Some(rails))
}

// One task.
fn lower_task(
    alloc: Global,
    rtl: &Rtl,
    net: &mut Net,
    task: Task,
    bits: &mut Bits,
) -> Result<(), NoMemory>
    requires ready { IsTaskReady rtl.now bits.old task net.old }
    requires below { AllBelow (length net.old) bits.old.exprs }
    requires cell_count { length bits.old.cells ≡ length rtl.now.cells }
    requires expr_count { length bits.old.exprs ≡ length rtl.now.exprs }
    ensures { OnOk result (IsTaskDone rtl.now task net.old net.new bits.old bits.new) }
{
    match task {
        Task::Expr(index) => {
            let expr = rtl.exprs.at(index);
            let rails = lower_expr(
                alloc,
                net,
                bits.cells.as_slice(),
                bits.exprs.as_slice(),
                expr,
            )?;
            bits.exprs.set(index, rails);
        }
        Task::Cell(index) => {
            let cell = *rtl.cells.at(index);
            let rails = lower_cell(alloc, rtl, net, index, cell, bits.exprs.as_slice())?;
            bits.cells.set(index, rails);
        }
    }
    Ok(())
}

/// All tasks of a schedule, and how many nets stand after each.
pub fn lower_tasks(
    alloc: Global,
    rtl: &Rtl,
    net: &mut Net,
    tasks: &[Task],
    bits: &mut Bits,
) -> Result<List<u32>, NoMemory>
    requires sound { IsSound rtl.now }
    requires schedule { IsSchedule rtl.now tasks.now }
    requires begun { IsBegun rtl.now net.old bits.old }
    requires room { HasRoom (cost_left rtl.now bits.old) net.old }
    ensures { IfOk result (AreDone rtl.now tasks.now (length tasks.now) net.old net.new bits.old bits.new) }
{
    let mut ends = List::new(alloc);
    for task in tasks {
        lower_task(alloc, rtl, net, *task, bits)?;
        ends.push(net.len())?;
    }
    Ok(ends)
}
