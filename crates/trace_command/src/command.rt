//! The trace of a source along a stimulus, from files.

ghost use Rattle.std.specs.Prelude.{◌≡◌, ◌≤◌, None, length};
ghost use Rattle.mp_program.specs.Pads.{ArePadsOf};
ghost use Rattle.stimulus.specs.declared.limits.TheConstants.{CLOCK_LIMIT, PAD_LIMIT};
ghost use Rattle.outside.specs.Outside.{Keeps};
ghost use Rattle.outcome.specs.Order.{IsStrayBy};
ghost use Rattle.outcome.specs.World.{world_of, HasCauses, Leaves, World};
ghost use Rattle.outcome.specs.Halt.{Ends, IsQuiet, status_of};
ghost use Rattle.stages.specs.Stages.{second};
ghost use Rattle.trace_command.specs.Traced.{Traces, beside};
ghost use Rattle.trace_command.specs.Work.{work};

use outcome::Halt;
use outside::{Depot, Sink};
use source_files::{Prepared, prepare};
use std::alloc::Global;
use trace_run::Tracer;

// Prints the transcript of a program along its stimulus, whatever the rest of the world is.
fn show<O: Sink>(alloc: Global, out: &mut O, made: &Prepared) -> Result<(), Halt>
    requires padded { ArePadsOf made.now.checked.program made.now.stimulus.pads }
    requires few_inputs { length made.now.stimulus.pads.inputs ≤ PAD_LIMIT }
    requires few_clocks { length made.now.stimulus.clocks ≤ CLOCK_LIMIT }
    ensures causes { (rest : World) → let world = beside rest O.held O.faults in
        HasCauses (status_of result) ⊥ (world out.old) (world out.new) }
    ensures content { (rest : World) → let world = beside rest O.held O.faults in
        Leaves (Ends (second None (Traces made.now.checked.program made.now.stimulus)) result)
        (world out.old) (world out.new) }
    ensures silent { IsQuiet result (O.held out.old) (O.held out.new) }
{
    let mut tracer = Tracer::open(alloc, &made.checked, &made.stimulus)?;
    let printed = tracer.run(out);
    drop(tracer);
    Ok(printed?)
}

/// Prints the transcript of the source's trace.
///
/// # Errors
///
/// A read fault, the first broken rule of the source and then of the stimulus, want of memory, or a write fault of the
/// sink.
pub fn trace<D: Depot, O: Sink>(
    alloc: Global,
    depot: &mut D,
    out: &mut O,
    source: &str,
    stimulus: &str,
) -> Result<(), Halt>
    ensures causes { let world = world_of D.held D.read_faults D.write_faults O.held O.faults in
        HasCauses (status_of result) (IsStrayBy (work source.now stimulus.now).First (D.held depot.new))
        (world depot.old out.old) (world depot.new out.new) }
    ensures content { let world = world_of D.held D.read_faults D.write_faults O.held O.faults in
        Leaves (Ends (work source.now stimulus.now) result) (world depot.old out.old) (world depot.new out.new) }
    ensures silent { IsQuiet result (O.held out.old) (O.held out.new) }
    ensures held { Keeps (D.held depot.old) (D.held depot.new) }
    ensures writes { D.write_faults depot.new ≡ D.write_faults depot.old }
{
    let made = prepare(alloc, depot, source, stimulus)?;
    let shown = show(alloc, out, &made);
    drop(made);
    shown
}
