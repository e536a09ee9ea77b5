//! The verdict of the lambda rules on the masks in a file.

ghost use Rattle.std.specs.Prelude.{◌≡◌, IfOk, IfSome, []};
ghost use Rattle.outside.specs.Outside.{Keeps};
ghost use Rattle.outcome.specs.Order.{IsStrayBy};
ghost use Rattle.outcome.specs.World.{world_of, HasCauses, Leaves};
ghost use Rattle.outcome.specs.Halt.{HasReason, Ends, IsQuiet, status_of};
ghost use Rattle.rules_command.specs.Work.{work};

use crate::line::verdict_line;
use design_rules::judge;
use mask_files::read_drawing;
use outcome::Halt;
use outside::{Depot, Sink, write_all};
use std::alloc::Global;

// Reads and judges the masks, and gives the line of their verdict.
fn prepare<D: Depot>(alloc: Global, depot: &mut D, cif: &str) -> Result<Vec<u8>, Halt>
    ensures held { Keeps (D.held depot.old) (D.held depot.new) }
    ensures shows { IfOk result
        (λ text. IfSome (D.held depot.new) (λ files. (work cif.now).Shows files [] text.items)) }
    ensures reason { HasReason (work cif.now).First (D.held depot.new)
        (D.read_faults depot.old) (D.read_faults depot.new) result }
    ensures writes { D.write_faults depot.new ≡ D.write_faults depot.old }
{
    let flat = read_drawing(alloc, depot, cif)?;
    let verdict = judge(alloc, &flat)?;
    Ok(verdict_line(alloc, verdict)?)
}

/// Prints the verdict of the lambda rules on what the masks in a file draw, whatever network they are.
///
/// # Errors
///
/// A read fault, the first broken rule of texts or of drawing, want of memory, or a write fault of the sink.
pub fn rules<D: Depot, O: Sink>(
    alloc: Global,
    depot: &mut D,
    out: &mut O,
    cif: &str,
) -> Result<(), Halt>
    ensures causes { let world = world_of D.held D.read_faults D.write_faults O.held O.faults in
        HasCauses (status_of result) (IsStrayBy (work cif.now).First (D.held depot.new))
        (world depot.old out.old) (world depot.new out.new) }
    ensures content { let world = world_of D.held D.read_faults D.write_faults O.held O.faults in
        Leaves (Ends (work cif.now) result) (world depot.old out.old) (world depot.new out.new) }
    ensures silent { IsQuiet result (O.held out.old) (O.held out.new) }
    ensures held { Keeps (D.held depot.old) (D.held depot.new) }
    ensures writes { D.write_faults depot.new ≡ D.write_faults depot.old }
{
    let text = prepare(alloc, depot, cif)?;
    write_all(out, &text)?;
    Ok(())
}
