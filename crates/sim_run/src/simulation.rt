//! A circuit along a stimulus.

ghost use Rattle.std.specs.Prelude.{◌≡◌, ◌<◌, ◌^◌, length, IfOk};
ghost use Rattle.mp_base.specs.declared.value.Trit.TheVariants.{X};
ghost use Rattle.mp_base.specs.Refuses.{IsJudged};
ghost use Rattle.outside.specs.Outside.{HasCause};
ghost use Rattle.switch_net.specs.Values.{value_at};
ghost use Rattle.clock_run.specs.Refused.{OfCircuit};
ghost use Rattle.transcript.specs.Running.{PrintsTranscript};
ghost use Rattle.sim_run.specs.Transcript.{NetworkSteps};

use clock_run::Circuit;
use mp_base::{Refusal, Trit};
use outside::{Failed, Sink};
use std::alloc::Global;
use std::marker::Model;
use stimulus::Stimulus;
use switch_net::Network;
use switch_net::laws::circuits_run;
use transcript::{Room, run};

/// A circuit that runs along a stimulus, and all the memory that this takes.
#[derive(Drop)]
pub struct Simulation<'a> {
    circuit: Circuit<'a>,
    given: &'a Stimulus,
    room: Room,
}

impl<'a> Model for Simulation<'a> {
    ghost use Rattle.sim_run.specs.Simulation.{Simulating, IsReady};

    ghost Value = { Simulating };

    ghost view = { λ s. record { network = s.circuit.network; given = s.given.now; values = s.circuit.values } };

    ghost invariant = { λ s. IsReady s.circuit s.given.now s.room };
}

impl<'a> Simulation<'a> {
    /// The circuit of a network with the stimulus's pads, all of whose nodes are X.
    ///
    /// # Errors
    ///
    /// N3 where a node has two drivers, or else N4 where a label of a pad, of power, of ground or of a phase is
    /// missing.
    pub fn open(
        alloc: Global,
        network: Network,
        given: &'a Stimulus,
    ) -> Result<Simulation<'a>, Refusal>
        requires few_inputs { length given.now.pads.inputs < 2 ^ 32 }
        requires few_clocks { length given.now.clocks < 2 ^ 32 }
        ensures network { IfOk result (λ s. s.network ≡ network) }
        ensures given { IfOk result (λ s. s.given ≡ given.now) }
        ensures unknown { IfOk result (λ s. value_at s.values ≡ (λ node. X)) }
        ensures judged { IsJudged (OfCircuit network given.now.pads) result }
    {
        let room = Room::new(alloc, &given.pads)?;
        let circuit = Circuit::open(alloc, network, &given.pads)?;
        Ok(Simulation {
            circuit,
            given,
            room,
        })
    }

    /// The value of each node.
    pub fn values(&self) -> &[Trit]
        ensures same { result.now ≡ self.now.values }
        ensures sized { length result.now ≡ self.now.network.nodes }
    {
        self.circuit.values()
    }

    /// Runs the circuit along the stimulus from the values that it has, and prints the line of each clock as it ends:
    /// its number, from 0, and ` NAME=VALUE` for each output pad, where the value is `X` if one of its bits is unknown.
    ///
    /// # Errors
    ///
    /// `Failed` where the sink failed.
    pub fn run<O: Sink>(&mut self, out: &mut O) -> Result<(), Failed>
        ensures network { self.new.network ≡ self.old.network }
        ensures given { self.new.given ≡ self.old.given }
        ensures printed { PrintsTranscript (NetworkSteps self.old.network self.old.given.pads) self.old.given
            (value_at self.old.values) (value_at self.new.values) (O.held out.old) (O.held out.new) result }
        ensures cause { HasCause (O.faults out.old) (O.faults out.new) result }
    {
        circuits_run();
        run(&mut self.circuit, self.given, &mut self.room, out)
    }
}
