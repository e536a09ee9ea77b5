//! A checked program as a device.

ghost use Rattle.std.specs.Prelude.{◌≡◌, IfOk};
ghost use Rattle.mp_program.specs.Pads.{ArePadsOf};
ghost use Rattle.mp_program.specs.State.{IsState, zero_state};

use crate::laws::clocks_fit;
use crate::words::fill_words;
use mp_base::{Inputs, List, NoMemory, Outputs, Pads, TritOutputs};
use mp_checker::Checked;
use mp_fitting::{zero_is_a_state, zero_state_fits};
use source_run::Machine;
use std::alloc::Global;
use std::marker::Model;
use transcript::Device;

/// A checked program that runs, and shows the bits of its values.
#[derive(Drop)]
pub struct Source<'a> {
    checked: &'a Checked,
    machine: Machine<'a>,
    pads: &'a Pads,
    values: Outputs,
}

impl<'a> Model for Source<'a> {
    ghost use Rattle.trace_run.specs.Source.{Sourcing, IsReady};

    ghost Value = { Sourcing };

    ghost view = { λ s. record { program = s.checked.now.program; pads = s.pads.now; state = s.machine.state } };

    ghost invariant = { λ s. IsReady s.checked.now.program s.machine s.pads.now s.values };
}

impl<'a> Source<'a> {
    /// A checked program in the zero state, with these pads.
    ///
    /// # Errors
    ///
    /// Want of memory.
    pub fn open(alloc: Global, checked: &'a Checked, pads: &'a Pads) -> Result<Source<'a>, NoMemory>
        requires padded { ArePadsOf checked.now.program pads.now }
        ensures program { IfOk result (λ s. s.program ≡ checked.now.program) }
        ensures pads { IfOk result (λ s. s.pads ≡ pads.now) }
        ensures zero { IfOk result (λ s. s.state ≡ zero_state checked.now.program) }
    {
        let program = checked.program();
        checked.unbroken();
        zero_is_a_state(program);
        zero_state_fits(program);
        let values = vec![in alloc; 0; pads.outputs.len()]?;
        let machine = Machine::open(alloc, checked)?;
        Ok(Source {
            checked,
            machine,
            pads,
            values: List::from_vec(values),
        })
    }

    /// The checked program.
    pub fn checked(&self) -> &Checked
        ensures { result.now.program ≡ self.now.program }
    {
        self.checked
    }

    /// A law: a call does nothing, and tells the caller's proof that the state is one of the program.
    pub fn sound(&self)
        ensures { IsState self.now.program self.now.state }
    {
        let _ = &self.machine;
    }
}

impl<'a> Device for Source<'a> {
    ghost use Rattle.trace_run.specs.Source.{SourceSteps};

    ghost pads_of = { λ s. s.pads };

    ghost steps = { SourceSteps };

    fn pads(&self) -> &Pads {
        self.pads
    }

    fn clock(&mut self, inputs: &Inputs, outputs: &mut TritOutputs) {
        clocks_fit(self.checked);
        self.machine.clock(inputs, &mut self.values);
        fill_words(
            self.pads.outputs.as_slice(),
            self.values.as_slice(),
            outputs,
        );
    }
}
