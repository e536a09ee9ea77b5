//! A program along a stimulus.

ghost use Rattle.std.specs.Prelude.{◌≡◌, ◌<◌, ◌^◌, length, IfOk};
ghost use Rattle.outside.specs.Outside.{HasCause};
ghost use Rattle.mp_program.specs.Pads.{ArePadsOf};
ghost use Rattle.mp_program.specs.State.{zero_state};
ghost use Rattle.transcript.specs.Running.{PrintsTranscript};
ghost use Rattle.trace_run.specs.Transcript.{ProgramSteps};

use crate::laws::{clocks_fit, traces_exist};
use crate::source::Source;
use mp_base::NoMemory;
use mp_checker::Checked;
use outside::{Failed, Sink};
use std::alloc::Global;
use std::marker::Model;
use stimulus::Stimulus;
use transcript::{Room, run};

/// A checked program that runs along a stimulus, and all the memory that this takes.
#[derive(Drop)]
pub struct Tracer<'a> {
    source: Source<'a>,
    given: &'a Stimulus,
    room: Room,
}

impl<'a> Model for Tracer<'a> {
    ghost use Rattle.trace_run.specs.Tracer.{Tracing, IsReady};

    ghost Value = { Tracing };

    ghost view = { λ s. record { program = s.source.program; given = s.given.now; state = s.source.state } };

    ghost invariant = { λ s. IsReady s.source s.given.now s.room };
}

impl<'a> Tracer<'a> {
    /// A checked program in the zero state, with a stimulus for its pads.
    ///
    /// # Errors
    ///
    /// Want of memory.
    pub fn open(
        alloc: Global,
        checked: &'a Checked,
        given: &'a Stimulus,
    ) -> Result<Tracer<'a>, NoMemory>
        requires padded { ArePadsOf checked.now.program given.now.pads }
        requires few_inputs { length given.now.pads.inputs < 2 ^ 32 }
        requires few_clocks { length given.now.clocks < 2 ^ 32 }
        ensures program { IfOk result (λ t. t.program ≡ checked.now.program) }
        ensures given { IfOk result (λ t. t.given ≡ given.now) }
        ensures zero { IfOk result (λ t. t.state ≡ zero_state checked.now.program) }
    {
        let room = Room::new(alloc, &given.pads)?;
        let source = Source::open(alloc, checked, &given.pads)?;
        Ok(Tracer {
            source,
            given,
            room,
        })
    }

    /// Runs the program along the stimulus from the state that it is in, and prints the line of each clock as it ends:
    /// its number, from 0, and ` NAME=VALUE` for each output pad.
    ///
    /// # Errors
    ///
    /// `Failed` where the sink failed.
    pub fn run<O: Sink>(&mut self, out: &mut O) -> Result<(), Failed>
        ensures program { self.new.program ≡ self.old.program }
        ensures given { self.new.given ≡ self.old.given }
        ensures printed { PrintsTranscript (ProgramSteps self.old.program self.old.given.pads.outputs) self.old.given
            self.old.state self.new.state (O.held out.old) (O.held out.new) result }
        ensures cause { HasCause (O.faults out.old) (O.faults out.new) result }
    {
        clocks_fit(self.source.checked());
        traces_exist(self.source.checked());
        self.source.sound();
        run(&mut self.source, self.given, &mut self.room, out)
    }
}
