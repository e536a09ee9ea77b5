//! From a data path and its fabric to a chip, and its size.

ghost use Rattle.std.specs.Prelude.{◌≡◌, ◌≤◌, IfOk, sum};
ghost use Rattle.rtl_form.specs.Cost.{cost};
ghost use Rattle.rtl_form.specs.Sound.{IsSound};
ghost use Rattle.cif_emit.specs.Emittable.{IsEmittable, chip_rects};
ghost use Rattle.compile_laws.specs.Laws.{IsBounded, IsSmallPlan};
ghost use Rattle.path_plan.specs.Paths.{AreLaid, IsPathFor};
ghost use Rattle.path_plan.specs.Plans.{IsMeasured};
ghost use Rattle.mp_base.specs.declared.limits.TheConstants.{WEIGHT_LIMIT};

use crate::chips::chip_of;
use crate::laws::labels_are_few;
use fabric::{Chip, Fabric};
use framed_chips::laws::framed_chips_are_kept;
use mp_base::{List, NoMemory};
use path_chips::laws::{paths_are_planned, paths_are_ratioed};
use path_form::DataPath;
use rtl_form::Rtl;
use slice_chip::laws::{
    columns_are_used, ends_are_marked, rectangles_are_few, segments_in_order, sliced_has_groups,
    sliced_is_small,
};
use std::alloc::Global;
use track_assign::Tracks;

/// A chip and its size: its columns, the signal rows of all bands, and the rows that were assigned in each band, from
/// that of the control up.
#[derive(Drop)]
pub struct Planned {
    pub chip: Chip,
    pub columns: u32,
    pub rows: u32,
    pub groups: List<Tracks>,
}

// The signal rows of all bands.
fn rows_of(fabric: &Fabric) -> u32
    ensures { result ≡ sum fabric.now.rows }
{
    fabric.conditions();
    let mut count = 0;
    for rows in fabric.rows() {
        count += *rows;
    }
    count
}

/// The plan of register transfers that a data path shows, from the path's fabric: its chip has each label of
/// their pads once, in order and on a pad of its own, at whatever offsets its labels stand it breaks no rule of masks,
/// and each network that its rectangles draw follows the transfers, from every charge. It has at most
/// 100 (cost + 8) (word length + 1) rectangles and 64 cost + 5 labels, and can be written as commands. Its fabric has at
/// most cost + 8 columns, whatever the length of words, each but the trunks of ground and power with a line, and one
/// band for each bit beside that of the control.
///
/// # Errors
///
/// `NoMemory`.
pub fn planned_of(
    alloc: Global,
    rtl: &Rtl,
    path: &DataPath,
    fabric: Fabric,
    groups: List<Tracks>,
) -> Result<Planned, NoMemory>
    requires sound { IsSound rtl.now }
    requires light { cost rtl.now ≤ WEIGHT_LIMIT }
    requires path { IsPathFor rtl.now path.now }
    requires laid { AreLaid path.now fabric groups }
    ensures planned { IfOk result (λ planned. IsSmallPlan rtl.now (chip_rects planned.chip) planned.chip.labels) }
    ensures emittable { IfOk result (λ planned. IsEmittable (chip_rects planned.chip) planned.chip.labels) }
    ensures measured { IfOk result (IsMeasured rtl.now) }
    ensures bounded { IfOk result (λ planned. IsBounded rtl.now (chip_rects planned.chip) planned.chip.labels) }
{
    paths_are_planned();
    paths_are_ratioed();
    rectangles_are_few();
    labels_are_few();
    sliced_is_small();
    sliced_has_groups();
    ends_are_marked();
    columns_are_used();
    framed_chips_are_kept();
    segments_in_order();
    // What every net and every fabric keeps.
    let _control = path.control.len();
    let _slices = path.slices.net.len();
    fabric.conditions();
    let columns = fabric.columns();
    let rows = rows_of(&fabric);
    let chip = chip_of(alloc, path, fabric)?;
    Ok(Planned {
        chip,
        columns,
        rows,
        groups,
    })
}
