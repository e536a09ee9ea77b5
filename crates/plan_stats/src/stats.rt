//! The size of a program's chip.

ghost use Rattle.std.specs.Prelude.{IfOk};
ghost use Rattle.plan_stats.specs.Stats.{IsPlanOf, IsStatsOf};

use crate::text::lines_of;
use compile_laws::laws::chips_are_made;
use mp_base::NoMemory;
use mp_checker::{Checked, weight};
use path_plan::Planned;
use process_sequencer::sequence;
use slice_plan::plan;
use std::alloc::Global;

// The plan of a program. What it is made from is let go.
fn plan_of(alloc: Global, checked: &Checked) -> Result<Planned, NoMemory>
    ensures { IfOk result (IsPlanOf checked.now.program) }
{
    checked.unbroken();
    chips_are_made(checked.program());
    let _light = weight(checked);
    let rtl = sequence(alloc, checked)?;
    plan(alloc, &rtl)
}

/// The size of a program's chip: `weight N`, `columns N`, `rows N` for the signal rows of all bands, and for each band,
/// from 0 on, `group I tracks N column N`, each with a line feed.
///
/// # Errors
///
/// `NoMemory`.
pub fn stats_text(alloc: Global, checked: &Checked) -> Result<Vec<u8>, NoMemory>
    ensures { IfOk result (λ text. IsStatsOf checked.now.program text.items) }
{
    let planned = plan_of(alloc, checked)?;
    let text = lines_of(
        alloc,
        weight(checked),
        planned.columns,
        planned.rows,
        planned.groups.as_slice(),
    )?;
    Ok(text)
}
