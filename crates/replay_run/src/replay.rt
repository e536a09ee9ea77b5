//! The circuit of a chip along a stimulus.

ghost use Rattle.std.specs.Prelude.{◌≡◌, ◌<◌, ◌^◌, length, IfOk};
ghost use Rattle.outside.specs.Outside.{HasCause};
ghost use Rattle.mp_base.specs.declared.value.Trit.TheVariants.{X};
ghost use Rattle.switch_net.specs.Values.{value_at};
ghost use Rattle.switch_net.specs.Breaks.{HasPads};
ghost use Rattle.replay_run.specs.Replay.{IsReady, PrintsReplay};

use crate::counts::write_last_line;
use mask_net::size_text;
use mp_base::{NoMemory, Refusal};
use outside::{Failed, Sink};
use sim_run::Simulation;
use std::alloc::Global;
use std::marker::Model;
use stimulus::Stimulus;
use switch_net::Network;

/// A circuit that has run no clock, the stimulus that it is to run along, and all the memory that this takes.
#[derive(Drop)]
pub struct Replay<'a> {
    simulation: Simulation<'a>,
    size: Vec<u8>,
}

impl<'a> Model for Replay<'a> {
    ghost use Rattle.sim_run.specs.Simulation.{Simulating};
    ghost use Rattle.replay_run.specs.Replay.{IsReady};

    ghost Value = { Simulating };

    ghost view = { λ r. r.simulation };

    ghost invariant = { λ r. IsReady r.simulation r.size.items };
}

// The simulation of a network of which it is known that it has the stimulus's pads.
fn simulation<'a>(
    alloc: Global,
    network: Network,
    given: &'a Stimulus,
) -> Result<Simulation<'a>, NoMemory>
    requires few_inputs { length given.now.pads.inputs < 2 ^ 32 }
    requires few_clocks { length given.now.clocks < 2 ^ 32 }
    requires has_pads { HasPads network given.now.pads }
    ensures network { IfOk result (λ s. s.network ≡ network) }
    ensures given { IfOk result (λ s. s.given ≡ given.now) }
    ensures unknown { IfOk result (λ s. value_at s.values ≡ (λ node. X)) }
{
    match Simulation::open(alloc, network, given) {
        Ok(simulation) => Ok(simulation),
        Err(Refusal::NoMemory) => Err(NoMemory),
        Err(Refusal::Broken(_)) => unreachable!(),
    }
}

// Runs a circuit that has run no clock, and prints all of it.
fn run_clocks<O: Sink>(
    simulation: &mut Simulation<'_>,
    size: &[u8],
    out: &mut O,
) -> Result<(), Failed>
    requires ready { IsReady simulation.old size.now }
    ensures printed { PrintsReplay simulation.old.network simulation.old.given
        (O.held out.old) (O.held out.new) result }
    ensures cause { HasCause (O.faults out.old) (O.faults out.new) result }
{
    simulation.run(out)?;
    write_last_line(out, size, simulation.values())
}

impl<'a> Replay<'a> {
    /// The circuit of a network that has the stimulus's pads, all of whose nodes are X.
    ///
    /// # Errors
    ///
    /// Want of memory.
    pub fn open(
        alloc: Global,
        network: Network,
        given: &'a Stimulus,
    ) -> Result<Replay<'a>, NoMemory>
        requires few_inputs { length given.now.pads.inputs < 2 ^ 32 }
        requires few_clocks { length given.now.clocks < 2 ^ 32 }
        requires has_pads { HasPads network given.now.pads }
        ensures network { IfOk result (λ r. r.network ≡ network) }
        ensures given { IfOk result (λ r. r.given ≡ given.now) }
    {
        let size = size_text(alloc, &network)?;
        let simulation = simulation(alloc, network, given)?;
        Ok(Replay { simulation, size })
    }

    /// Runs the circuit along the stimulus, and prints its transcript, every clock in full, and its size line. Takes no
    /// memory.
    ///
    /// # Errors
    ///
    /// `Failed` where the sink failed: then a first part was printed, but not all.
    pub fn run<O: Sink>(self, out: &mut O) -> Result<(), Failed>
        ensures printed { PrintsReplay self.entry.network self.entry.given (O.held out.old) (O.held out.new) result }
        ensures cause { HasCause (O.faults out.old) (O.faults out.new) result }
    {
        let Replay {
            mut simulation,
            size,
        } = self;
        let printed = run_clocks(&mut simulation, &size, out);
        drop(simulation);
        printed
    }
}
