//! Expressions and driven words, one after the other.

ghost use Rattle.std.specs.Prelude.{◌≡◌, ◌<◌, suc, Some, OnOk, length, slice_get};
ghost use Rattle.datapath_making.specs.Marking.{last_mark};
ghost use Rattle.datapath_alloc.specs.Progress.{IsMadeTo, IsMarkedAt, KeepsMarks};
ghost use Rattle.datapath_alloc.specs.Shared.{SharesNets};
ghost use Rattle.datapath_alloc.specs.Noting.{IsSharing};

use control_nor::Names;
use datapath_making::Making;
use datapath_sharing::{Built, add_number, add_operator};
use datapath_steps::{add_driven, read_cell};
use mp_base::NoMemory;
use rtl_form::{Rtl, RtlExpr};
use std::alloc::Global;
use task_schedule::Task;

// The task at a place.
fn task_at(names: &Names, index: usize) -> Task
    requires { index < length names.now.tasks }
    ensures { slice_get names.now.tasks index ≡ Some result }
{
    names.tasks.as_slice()[index]
}

// The word of an expression or of a driven cell, or the bit that is lifted into the control; nothing for other bits.
fn add_task(
    alloc: Global,
    rtl: &Rtl,
    making: &mut Making,
    built: &mut Built,
    index: usize,
) -> Result<(), NoMemory>
    requires task { index < length making.old.names.tasks }
    requires marked { IsMarkedAt index making.old }
    requires made { IsMadeTo rtl.now (length rtl.now.cells) index 0 making.old }
    requires sharing { IsSharing rtl.now index built.old making.old }
    ensures made { OnOk result (IsMadeTo rtl.now (length rtl.now.cells) (suc index) 0 making.new) }
    ensures marks { OnOk result (KeepsMarks making.old making.new) }
    ensures sharing { OnOk result (IsSharing rtl.now (suc index) built.new making.new) }
{
    match task_at(&making.names, index) {
        Task::Expr(expr) => match rtl.exprs.at(expr) {
            RtlExpr::Number(bits) => add_number(making, built, expr, *bits),
            RtlExpr::Truth(_) => Ok(()),
            RtlExpr::Cell(cell) => {
                read_cell(making, expr, *cell);
                Ok(())
            }
            RtlExpr::Apply { op, index, args } => {
                add_operator(alloc, making, built, expr, *op, *index, args.as_slice())
            }
        },
        Task::Cell(cell) => {
            if rtl.cells.at(cell).word {
                add_driven(alloc, rtl, making, cell)
            } else {
                Ok(())
            }
        }
    }
}

/// All tasks, with a mark before the first and behind each.
pub fn add_tasks(alloc: Global, rtl: &Rtl, making: &mut Making) -> Result<(), NoMemory>
    requires unmarked { (last_mark making.old).control ≡ 0 }
    requires made { IsMadeTo rtl.now (length rtl.now.cells) 0 0 making.old }
    ensures made { OnOk result
        (IsMadeTo rtl.now (length rtl.now.cells) (length making.new.names.tasks) 0 making.new) }
    ensures marked { OnOk result (IsMarkedAt (length making.new.names.tasks) making.new) }
    ensures shared { OnOk result (SharesNets rtl.now making.new.names making.new.words making.new.lifts) }
{
    let mut built = Built::new(alloc);
    let start = making.names.start;
    making.mark(start)?;
    for index in 0..making.names.tasks.len() {
        add_task(alloc, rtl, making, &mut built, index)?;
        let end = making.names.ends.as_slice()[index];
        making.mark(end)?;
    }
    Ok(())
}
