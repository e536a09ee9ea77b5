//! The masks of a source from file to file, and the run of the circuit that they draw.

ghost use Rattle.std.specs.Prelude.{◌≡◌};
ghost use Rattle.outcome.specs.Order.{IsStrayBy};
ghost use Rattle.outcome.specs.World.{world_of, HasCauses, Leaves};
ghost use Rattle.outcome.specs.Halt.{Ends, IsQuiet, status_of};
ghost use Rattle.replay_command.specs.Work.{work};

use crate::played::play;
use outcome::Halt;
use outside::{Depot, Sink};
use source_files::prepare;
use std::alloc::Global;

/// Writes the CIF file of a chip for the source, and prints the transcript of the circuit that its bytes draw, along
/// the stimulus from unknown values, and the size line at its end.
///
/// # Errors
///
/// A read fault, the first broken rule of the source and then of the stimulus, want of memory, or a write fault of the
/// depot or the sink.
pub fn replay<D: Depot, O: Sink>(
    alloc: Global,
    depot: &mut D,
    out: &mut O,
    source: &str,
    stimulus: &str,
    cif: &str,
) -> Result<(), Halt>
    ensures causes { let world = world_of D.held D.read_faults D.write_faults O.held O.faults in
        HasCauses (status_of result) (IsStrayBy (work source.now stimulus.now cif.now).First (D.held depot.new))
        (world depot.old out.old) (world depot.new out.new) }
    ensures content { let world = world_of D.held D.read_faults D.write_faults O.held O.faults in
        Leaves (Ends (work source.now stimulus.now cif.now) result)
        (world depot.old out.old) (world depot.new out.new) }
    ensures silent { IsQuiet result (O.held out.old) (O.held out.new) }
{
    let made = prepare(alloc, depot, source, stimulus)?;
    let played = play(alloc, depot, out, cif, &made);
    drop(made);
    played
}
