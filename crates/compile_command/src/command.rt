//! The masks of a source, from file to file.

ghost use Rattle.std.specs.Prelude.{◌≡◌, IfOk, IfSome, []};
ghost use Rattle.outside.specs.Outside.{Keeps};
ghost use Rattle.outcome.specs.Order.{IsStrayBy};
ghost use Rattle.outcome.specs.World.{world_of, HasCauses, Leaves};
ghost use Rattle.outcome.specs.Halt.{HasReason, Ends, IsQuiet, status_of};
ghost use Rattle.compile_command.specs.Work.{work};

use chip_text::chip_text;
use outcome::Halt;
use outside::{Depot, Sink, store};
use source_files::read_source;
use std::alloc::Global;

// Reads and judges the source, and gives the bytes of its chip.
fn prepare<D: Depot>(alloc: Global, depot: &mut D, source: &str, cif: &str) -> Result<Vec<u8>, Halt>
    ensures held { Keeps (D.held depot.old) (D.held depot.new) }
    ensures shows { IfOk result (λ chip. IfSome (D.held depot.new)
        (λ files. (work source.now cif.now).Shows files chip.items [])) }
    ensures reason { HasReason (work source.now cif.now).First (D.held depot.new)
        (D.read_faults depot.old) (D.read_faults depot.new) result }
    ensures writes { D.write_faults depot.new ≡ D.write_faults depot.old }
{
    let checked = read_source(alloc, depot, source)?;
    Ok(chip_text(alloc, &checked)?)
}

/// Writes the CIF file of a chip for the source, and prints nothing.
///
/// # Errors
///
/// A read fault, the first broken rule of the source, want of memory, or a write fault of the depot.
pub fn compile<D: Depot, O: Sink>(
    alloc: Global,
    depot: &mut D,
    _out: &mut O,
    source: &str,
    cif: &str,
) -> Result<(), Halt>
    ensures causes { let world = world_of D.held D.read_faults D.write_faults O.held O.faults in
        HasCauses (status_of result) (IsStrayBy (work source.now cif.now).First (D.held depot.new))
        (world depot.old _out.old) (world depot.new _out.new) }
    ensures content { let world = world_of D.held D.read_faults D.write_faults O.held O.faults in
        Leaves (Ends (work source.now cif.now) result) (world depot.old _out.old) (world depot.new _out.new) }
    ensures silent { IsQuiet result (O.held _out.old) (O.held _out.new) }
{
    let chip = prepare(alloc, depot, source, cif)?;
    store(depot, cif, &chip)?;
    Ok(())
}
