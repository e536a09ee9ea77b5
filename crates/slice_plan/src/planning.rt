//! From transfers to a chip.

ghost use Rattle.std.specs.Prelude.{◌≤◌, IfOk};
ghost use Rattle.rtl_form.specs.Cost.{cost};
ghost use Rattle.rtl_form.specs.Sound.{IsSound};
ghost use Rattle.cif_emit.specs.Emittable.{IsEmittable, chip_rects};
ghost use Rattle.compile_laws.specs.Laws.{IsBounded, IsSmallPlan};
ghost use Rattle.path_plan.specs.Plans.{IsMeasured};
ghost use Rattle.slice_plan.specs.Turned.{IsTurned};
ghost use Rattle.mp_base.specs.declared.limits.TheConstants.{WEIGHT_LIMIT};

use column_guesses::{Guess, guess_turns};
use datapath_alloc::allocate;
use mp_base::NoMemory;
use path_form::DataPath;
use path_laying::{Laid, lay};
use path_plan::{Planned, planned_of};
use path_reducing::reduced;
use path_values::laws::{allocated_paths_realize, realized_paths_show};
use rtl_form::Rtl;
use std::alloc::Global;

// The same path, in which columns take turns so that the plan wants few rows.
fn turned(alloc: Global, path: DataPath) -> Result<DataPath, NoMemory>
    ensures { IfOk result (IsTurned path) }
{
    let Guess { control, slices } = guess_turns(alloc, &path)?;
    let mut path = path;
    path.control_turns = control;
    path.slice_turns = slices;
    Ok(path)
}

/// The plan of register transfers that fit together and cost at most 1024. Its chip has each label of their pads once,
/// in order, at whatever offsets its labels stand it breaks no rule of masks, and each network that its rectangles draw
/// follows the transfers, from every charge. It has at most 100 (cost + 8) (word length + 1) rectangles and
/// 64 cost + 5 labels, and can be written as commands. It has at most cost + 8 columns, whatever the length of words,
/// and one band for each bit beside that of the control.
///
/// # Errors
///
/// `NoMemory`.
pub fn plan(alloc: Global, rtl: &Rtl) -> Result<Planned, NoMemory>
    requires sound { IsSound rtl.now }
    requires light { cost rtl.now ≤ WEIGHT_LIMIT }
    ensures planned { IfOk result (λ planned. IsSmallPlan rtl.now (chip_rects planned.chip) planned.chip.labels) }
    ensures emittable { IfOk result (λ planned. IsEmittable (chip_rects planned.chip) planned.chip.labels) }
    ensures measured { IfOk result (IsMeasured rtl.now) }
    ensures bounded { IfOk result (λ planned. IsBounded rtl.now (chip_rects planned.chip) planned.chip.labels) }
{
    allocated_paths_realize();
    realized_paths_show();
    let allocated = allocate(alloc, rtl)?;
    let smaller = reduced(alloc, allocated)?;
    let path = turned(alloc, smaller)?;
    let Laid { fabric, groups } = lay(alloc, &path)?;
    planned_of(alloc, rtl, &path, fabric, groups)
}
