//! The machine: a program, and the state that it is in.

use crate::fit::states_fit;
use mp_base::{Inputs, List, NoMemory, Outputs, Pads};
use mp_checker::Checked;
use mp_fitting::{zero_is_a_state, zero_state_fits};
use program_clock::Clockwork;
use std::alloc::Global;
use std::marker::Model;

/// A program that runs.
#[derive(Drop)]
pub struct Machine<'a> {
    pads: &'a Pads,
    order: &'a List<u32>,
    clockwork: Clockwork<'a>,
}

impl<'a> Model for Machine<'a> {
    ghost use Rattle.program_clock.specs.Running.{Running};

    ghost Value = { Running };

    ghost use Rattle.source_run.specs.Inside.{running_of, IsReady};

    ghost view = { running_of };

    ghost invariant = { IsReady };
}

impl<'a> Machine<'a> {
    ghost use Rattle.std.specs.Prelude.{◌≡◌, length, map, slice_index, IfOk};
    ghost use Rattle.mp_fitting.specs.Fitting.{StateFits};
    ghost use Rattle.mp_program.specs.Pads.{input_pads, output_pads, ArePadsOf, FitsPads};
    ghost use Rattle.mp_program.specs.State.{IsState, zero_state};
    ghost use Rattle.mp_program.specs.Trace.{IsClock};
    ghost use Rattle.mp_rules.specs.Breaking.{IsUnbroken};

    /// A machine in the zero state.
    pub fn open(alloc: Global, checked: &'a Checked) -> Result<Machine<'a>, NoMemory>
        ensures program { IfOk result (λ m. m.program ≡ checked.now.program) }
        ensures state { IfOk result (λ m. m.state ≡ zero_state checked.now.program) }
    {
        let program = checked.program();
        checked.unbroken();
        zero_is_a_state(program);
        zero_state_fits(program);
        Ok(Machine {
            pads: checked.pads(),
            order: checked.order(),
            clockwork: Clockwork::open(alloc, program)?,
        })
    }

    /// The pads of the program, in the order of their definitions.
    pub fn pads(&self) -> &Pads
        ensures { ArePadsOf self.now.program result.now }
    {
        self.pads
    }

    /// What is stored for each definition, which is 0 for what is no register and no flag.
    pub fn stored(&self) -> &[u64]
        ensures { result.now ≡ self.now.state.stored }
    {
        self.clockwork.stored()
    }

    /// The place of the process with this number, or 0 past the last.
    pub fn place(&self, process: usize) -> usize
        ensures { result ≡ slice_index (map (λ s. s.place) self.now.state.seats) process }
    {
        self.clockwork.place(process)
    }

    /// A law: a call does nothing, and tells the caller's proof that the program breaks no rule, and that the state is
    /// one of the program and fits.
    pub fn sound(&self)
        ensures unbroken { IsUnbroken self.now.program }
        ensures state { IsState self.now.program self.now.state }
        ensures fits { StateFits self.now.program self.now.state }
    {
        self.clockwork.sound();
    }

    /// Runs one clock: gives the values of the input pads, and takes those of the output pads.
    pub fn clock(&mut self, inputs: &Inputs, outputs: &mut Outputs)
        requires inputs { FitsPads (input_pads self.old.program) inputs.now }
        requires outputs { length outputs.old ≡ length (output_pads self.old.program) }
        ensures program { self.new.program ≡ self.old.program }
        ensures clock { IsClock self.old.program self.old.state inputs.now outputs.new self.new.state }
    {
        let order = self.order.as_slice();
        let program = self.clockwork.program();
        states_fit(program, order);
        self.clockwork.sound();
        self.clockwork.clock(order, inputs, outputs);
    }

    /// Returns to the zero state.
    pub fn clear(&mut self)
        ensures program { self.new.program ≡ self.old.program }
        ensures state { self.new.state ≡ zero_state self.old.program }
    {
        zero_state_fits(self.clockwork.program());
        self.clockwork.clear();
    }
}
