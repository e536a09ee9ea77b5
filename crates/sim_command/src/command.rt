//! The run of the circuit that masks draw, from files.

ghost use Rattle.std.specs.Prelude.{◌≡◌, ◌≤◌, length, IfOk, IfSome};
ghost use Rattle.mp_base.specs.declared.value.Trit.TheVariants.{X};
ghost use Rattle.outside.specs.Outside.{Keeps, bytes_of};
ghost use Rattle.switch_net.specs.Breaks.{HasPads};
ghost use Rattle.switch_net.specs.Values.{value_at};
ghost use Rattle.stimulus.specs.declared.limits.TheConstants.{CLOCK_LIMIT, PAD_LIMIT};
ghost use Rattle.outcome.specs.Order.{IsStrayBy};
ghost use Rattle.outcome.specs.World.{world_of, HasCauses, Leaves};
ghost use Rattle.outcome.specs.Halt.{HasReason, Ends, IsQuiet, status_of};
ghost use Rattle.sim_command.specs.Showing.{IsShown};
ghost use Rattle.sim_command.specs.Simulated.{IsSetUp};
ghost use Rattle.sim_command.specs.Work.{work, SetUpFault};

use mask_files::read_network;
use outcome::Halt;
use outside::{Depot, Sink};
use sim_run::Simulation;
use source_files::read_headed;
use std::alloc::Global;
use stimulus::Stimulus;
use switch_net::Network;

#[derive(Drop)]
struct SetUp {
    network: Network,
    given: Stimulus,
}

// Reads and judges the files.
fn prepare<D: Depot>(alloc: Global, depot: &mut D, cif: &str, stimulus: &str) -> Result<SetUp, Halt>
    ensures held { Keeps (D.held depot.old) (D.held depot.new) }
    ensures few_inputs { IfOk result (λ s. length s.given.pads.inputs ≤ PAD_LIMIT) }
    ensures few_clocks { IfOk result (λ s. length s.given.clocks ≤ CLOCK_LIMIT) }
    ensures set_up { IfOk result (λ s. IfSome (D.held depot.new)
        (λ files. IsSetUp (bytes_of files cif.now) (bytes_of files stimulus.now) s.network s.given)) }
    ensures reason { HasReason (SetUpFault cif.now stimulus.now) (D.held depot.new)
        (D.read_faults depot.old) (D.read_faults depot.new) result }
    ensures writes { D.write_faults depot.new ≡ D.write_faults depot.old }
{
    let network = read_network(alloc, depot, cif)?;
    let given = read_headed(alloc, depot, stimulus)?;
    Ok(SetUp { network, given })
}

// Runs a circuit from unknown values, and prints its transcript.
fn print<O: Sink>(simulation: &mut Simulation<'_>, out: &mut O) -> Result<(), Halt>
    requires unknown { value_at simulation.old.values ≡ (λ node. X) }
    requires has_pads { HasPads simulation.old.network simulation.old.given.pads }
    ensures { IsShown simulation.old.network simulation.old.given (O.held out.old) (O.held out.new)
        (O.faults out.old) (O.faults out.new) result }
{
    simulation.run(out)?;
    Ok(())
}

// Runs the circuit of a network along a stimulus.
fn show<O: Sink>(alloc: Global, network: Network, given: &Stimulus, out: &mut O) -> Result<(), Halt>
    requires few_inputs { length given.now.pads.inputs ≤ PAD_LIMIT }
    requires few_clocks { length given.now.clocks ≤ CLOCK_LIMIT }
    ensures { IsShown network given.now (O.held out.old) (O.held out.new) (O.faults out.old) (O.faults out.new)
        result }
{
    let mut simulation = Simulation::open(alloc, network, given)?;
    let result = print(&mut simulation, out);
    drop(simulation);
    result
}

/// Prints the transcript of the circuit, from unknown values.
///
/// # Errors
///
/// A read fault, the first broken rule of the masks, then of the stimulus, and then of the circuit with its pads (N3,
/// N4), want of memory, or a write fault of the sink.
pub fn sim<D: Depot, O: Sink>(
    alloc: Global,
    depot: &mut D,
    out: &mut O,
    cif: &str,
    stimulus: &str,
) -> Result<(), Halt>
    ensures causes { let world = world_of D.held D.read_faults D.write_faults O.held O.faults in
        HasCauses (status_of result) (IsStrayBy (work cif.now stimulus.now).First (D.held depot.new))
        (world depot.old out.old) (world depot.new out.new) }
    ensures content { let world = world_of D.held D.read_faults D.write_faults O.held O.faults in
        Leaves (Ends (work cif.now stimulus.now) result) (world depot.old out.old) (world depot.new out.new) }
    ensures silent { IsQuiet result (O.held out.old) (O.held out.new) }
    ensures held { Keeps (D.held depot.old) (D.held depot.new) }
    ensures writes { D.write_faults depot.new ≡ D.write_faults depot.old }
{
    let SetUp { network, given } = prepare(alloc, depot, cif, stimulus)?;
    show(alloc, network, &given, out)
}
