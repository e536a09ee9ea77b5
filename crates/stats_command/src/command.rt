//! The size of the chip of a source, from a file.

ghost use Rattle.std.specs.Prelude.{◌≡◌, IfOk, IfSome, []};
ghost use Rattle.outside.specs.Outside.{Keeps};
ghost use Rattle.outcome.specs.Order.{IsStrayBy};
ghost use Rattle.outcome.specs.World.{world_of, HasCauses, Leaves};
ghost use Rattle.outcome.specs.Halt.{HasReason, Ends, IsQuiet, status_of};
ghost use Rattle.stats_command.specs.Work.{work};

use outcome::Halt;
use outside::{Depot, Sink, write_all};
use plan_stats::stats_text;
use source_files::read_source;
use std::alloc::Global;

// Reads and judges the source, and gives the lines of its size.
fn prepare<D: Depot>(alloc: Global, depot: &mut D, source: &str) -> Result<Vec<u8>, Halt>
    ensures held { Keeps (D.held depot.old) (D.held depot.new) }
    ensures shows { IfOk result (λ text. IfSome (D.held depot.new)
        (λ files. (work source.now).Shows files [] text.items)) }
    ensures reason { HasReason (work source.now).First (D.held depot.new)
        (D.read_faults depot.old) (D.read_faults depot.new) result }
    ensures writes { D.write_faults depot.new ≡ D.write_faults depot.old }
{
    let checked = read_source(alloc, depot, source)?;
    Ok(stats_text(alloc, &checked)?)
}

/// Prints the weight of the program that a source spells, and the columns, rows and groups of tracks of its chip.
///
/// # Errors
///
/// A read fault, the first broken rule of the source, want of memory, or a write fault of the sink.
pub fn stats<D: Depot, O: Sink>(
    alloc: Global,
    depot: &mut D,
    out: &mut O,
    source: &str,
) -> Result<(), Halt>
    ensures causes { let world = world_of D.held D.read_faults D.write_faults O.held O.faults in
        HasCauses (status_of result) (IsStrayBy (work source.now).First (D.held depot.new))
        (world depot.old out.old) (world depot.new out.new) }
    ensures content { let world = world_of D.held D.read_faults D.write_faults O.held O.faults in
        Leaves (Ends (work source.now) result) (world depot.old out.old) (world depot.new out.new) }
    ensures silent { IsQuiet result (O.held out.old) (O.held out.new) }
    ensures held { Keeps (D.held depot.old) (D.held depot.new) }
    ensures writes { D.write_faults depot.new ≡ D.write_faults depot.old }
{
    let text = prepare(alloc, depot, source)?;
    write_all(out, &text)?;
    Ok(())
}
