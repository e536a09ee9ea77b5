//! What a program runs on.

use crate::memory::{clear, step};
use crate::seat::{Memory, zero_seats};
use crate::seats::take_places;
use crate::settle::{fixed_values, settle};
use crate::step::show;
use form_effects::Links;
use mp_base::{Inputs, NoMemory, Outputs};
use mp_program::Program;
use std::alloc::Global;
use std::marker::Model;

/// A program, the state that it is in, and room for the values of a clock.
#[derive(Drop)]
pub struct Clockwork<'a> {
    program: &'a Program,
    links: Links,
    memory: Memory,
    places: Vec<u32>,
    env: Vec<u64>,
}

impl<'a> Model for Clockwork<'a> {
    ghost use Rattle.program_clock.specs.Running.{Running};

    ghost Value = { Running };

    ghost use Rattle.program_clock.specs.Inside.{running_of, IsReady};

    ghost view = { running_of };

    ghost invariant = { IsReady };
}

impl<'a> Clockwork<'a> {
    ghost use Rattle.std.specs.Prelude.{◌≡◌, length, map, slice_index, IfOk};
    ghost use Rattle.mp_program.specs.Pads.{output_pads};
    ghost use Rattle.mp_program.specs.Reads.{IsOrder};
    ghost use Rattle.mp_program.specs.State.{IsState, zero_state};
    ghost use Rattle.mp_program.specs.Trace.{IsClock};

    /// A program in the zero state, which is one of its states.
    pub fn open(alloc: Global, program: &'a Program) -> Result<Clockwork<'a>, NoMemory>
        requires { IsState program.now (zero_state program.now) }
        ensures program { IfOk result (λ c. c.program ≡ program.now) }
        ensures state { IfOk result (λ c. c.state ≡ zero_state program.now) }
    {
        let memory = Memory {
            stored: vec![in alloc; 0; program.defs.len()]?,
            seats: zero_seats(alloc, program.processes.as_slice())?,
        };
        let places = vec![in alloc; 0; program.processes.len()]?;
        let env = fixed_values(alloc, program.defs.as_slice())?;
        let links = Links::find(alloc, program)?;
        Ok(Clockwork {
            program,
            links,
            memory,
            places,
            env,
        })
    }

    /// The program.
    pub fn program(&self) -> &Program
        ensures { result.now ≡ self.now.program }
    {
        self.program
    }

    /// A law: a call does nothing, and tells the caller's proof that the state is one of the program.
    pub fn sound(&self)
        ensures { IsState self.now.program self.now.state }
    {
        let _ = &self.program;
    }

    /// What is stored for each definition, which is 0 for what is no register and no flag.
    pub fn stored(&self) -> &[u64]
        ensures { result.now ≡ self.now.state.stored }
    {
        &self.memory.stored
    }

    /// The place of the process with this number, or 0 past the last.
    pub fn place(&self, process: usize) -> usize
        ensures { result ≡ slice_index (map (λ s. s.place) self.now.state.seats) process }
    {
        match self.memory.seats.get(process) {
            Some(seat) => seat.place,
            None => 0,
        }
    }

    /// Runs one clock, in an order of evaluation: gives the values of the input pads, and takes those of the output
    /// pads.
    pub fn clock(&mut self, order: &[u32], inputs: &Inputs, outputs: &mut Outputs)
        requires ordered { IsOrder self.old.program order.now }
        requires outputs { length outputs.old ≡ length (output_pads self.old.program) }
        ensures program { self.new.program ≡ self.old.program }
        ensures clock { IsClock self.old.program self.old.state inputs.now outputs.new self.new.state }
    {
        let given = inputs.as_slice();
        take_places(self.program, &self.memory.seats, &mut self.places);
        settle(
            self.program,
            &self.links,
            order,
            &self.memory,
            &self.places,
            given,
            &mut self.env,
        );
        show(self.program, &self.links, &self.env, outputs);
        step(
            self.program,
            &self.links,
            &self.places,
            given,
            &self.env,
            &mut self.memory,
        );
    }

    /// Returns to the zero state.
    pub fn clear(&mut self)
        ensures program { self.new.program ≡ self.old.program }
        ensures state { self.new.state ≡ zero_state self.old.program }
    {
        clear(self.program, &mut self.memory);
    }
}
