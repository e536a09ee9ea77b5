//! A circuit along a stimulus.

ghost use Rattle.std.specs.Prelude.{◌≡◌, ◌<◌, ◌^◌, length, OnOk};
ghost use Rattle.switch_net.specs.Values.{value_at};
ghost use Rattle.made_run.specs.Summary.{IsSummedRun};
ghost use Rattle.made_run.specs.Summing.{IsFresh};

use crate::summing::Summing;
use cif_emit::Text;
use mp_base::NoMemory;
use outside::Failed;
use std::alloc::Global;
use stimulus::Stimulus;
use transcript::{Room, run};

/// Runs a circuit that has run no clock along a stimulus.
///
/// # Errors
///
/// Want of memory.
pub(crate) fn run_along(
    alloc: Global,
    summing: &mut Summing<'_>,
    given: &Stimulus,
) -> Result<(), NoMemory>
    requires few_inputs { length given.now.pads.inputs < 2 ^ 32 }
    requires few_clocks { length given.now.clocks < 2 ^ 32 }
    requires fresh { IsFresh given.now.pads summing.old }
    ensures network { OnOk result (summing.new.circuit.network ≡ summing.old.circuit.network) }
    ensures run { OnOk result (IsSummedRun summing.old.circuit.network given.now
        (value_at summing.new.circuit.values) summing.new.sum) }
{
    let mut room = Room::new(alloc, &given.pads)?;
    let mut lines = Text::new(alloc);
    match run(summing, given, &mut room, &mut lines) {
        Ok(()) => Ok(()),
        Err(Failed) => Err(NoMemory),
    }
}
