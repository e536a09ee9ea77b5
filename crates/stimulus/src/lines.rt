//! What one line adds.

ghost use Rattle.std.specs.Prelude.{◌≡◌, ◌↔◌, IsTrue, ◌+◌, ◌<◌, ◌≤◌, ◌^◌, List, length, OnOk, IfOk, IfErr};
ghost use Rattle.std.specs.Option.{option_copied};
ghost use Rattle.stimulus_lines.specs.declared.form.Form.TheVariants.{Input, Output, Clock};
ghost use Rattle.stimulus.specs.Rules.{is_new_pad, is_known, IsFull, start_of, second_of, inputs_of, IsGiven};
ghost use Rattle.stimulus.specs.Rules.{IsMisfit, AreGiven, FirstMisfit, IsFault, IsInPlace, AddsForm, FormFault};
ghost use Rattle.stimulus.specs.Rules.{Adds, FirstIn};
ghost use Rattle.stimulus.specs.Reading.{nothing};

use crate::fault::Fault;
use crate::given::Given;
use crate::limits::{CLOCK_LIMIT, PAD_LIMIT};
use crate::reading::Reading;
use crate::rules::{are_apart, fits, has_pad, has_same, input_named};
use mp_base::{List, Pad, Pads, is_supply};
use std::alloc::Global;
use stimulus_lines::{Assignment, Form, Piece, is_clock, read_form};

fn start_of(line: &[Piece]) -> u32
    ensures { result ≡ start_of line.now }
{
    match line {
        [] => 0,
        [first, ..] => first.at,
    }
}

fn second_of(line: &[Piece]) -> u32
    ensures { result ≡ second_of line.now }
{
    match line {
        [] => 0,
        [_, rest @ ..] => start_of(rest),
    }
}

fn is_known_input(known: Option<&Pads>, pad: &Pad) -> bool
    ensures { result ≡ is_known (option_copied known.entry) (λ pads. pads.inputs) pad.now }
{
    match known {
        Some(pads) => has_same(pad, pads.inputs.as_slice()),
        None => true,
    }
}

fn is_known_output(known: Option<&Pads>, pad: &Pad) -> bool
    ensures { result ≡ is_known (option_copied known.entry) (λ pads. pads.outputs) pad.now }
{
    match known {
        Some(pads) => has_same(pad, pads.outputs.as_slice()),
        None => true,
    }
}

fn given(inputs: &[Pad], word: &Assignment) -> Result<Given, Fault>
    requires { length inputs.now < 2 ^ 32 }
    ensures ok { IfOk result (IsGiven inputs.now word.now) }
    ensures err { IfErr result (λ e. IsFault e (λ k at. IsMisfit inputs.now word.now k × (at ≡ word.now.at))) }
{
    let Some(input) = input_named(inputs, word.name.bytes()) else {
        return Err(Fault::Breaks(2, word.at));
    };
    if !fits(&inputs[input], word.value) {
        return Err(Fault::Breaks(3, word.at));
    }
    Ok(Given {
        input: input as u32,
        value: word.value,
    })
}

fn givens(alloc: Global, inputs: &[Pad], words: &[Assignment]) -> Result<List<Given>, Fault>
    requires { length inputs.now < 2 ^ 32 }
    ensures ok { IfOk result (AreGiven inputs.now words.now) }
    ensures err { IfErr result (λ e. IsFault e (FirstMisfit inputs.now words.now)) }
{
    let mut all = List::new(alloc);
    for word in words {
        all.push(given(inputs, word)?)?;
    }
    Ok(all)
}

impl Reading {
    pub(crate) fn new(alloc: Global) -> Reading
        ensures { result ≡ nothing }
    {
        Reading {
            inputs: List::new(alloc),
            outputs: List::new(alloc),
            clocks: List::new(alloc),
        }
    }

    fn inputs_of<'a>(&'a self, known: Option<&'a Pads>) -> &'a [Pad]
        ensures { result.now ≡ inputs_of (option_copied known.entry) self.now }
    {
        match known {
            Some(pads) => pads.inputs.as_slice(),
            None => self.inputs.as_slice(),
        }
    }

    fn is_full(&self, line: &[Piece]) -> bool
        ensures { IsTrue result ↔ IsFull self.now line.now }
    {
        is_clock(line) && self.clocks.len() >= CLOCK_LIMIT
    }

    fn is_new_pad(&self, name: &[u8]) -> bool
        ensures { result ≡ is_new_pad self.now name.now }
    {
        self.clocks.len() == 0
            && self.inputs.len() < PAD_LIMIT
            && self.outputs.len() < PAD_LIMIT - self.inputs.len()
            && !is_supply(name)
            && !has_pad(name, self.inputs.as_slice())
            && !has_pad(name, self.outputs.as_slice())
    }

    fn add_input(&mut self, line: &[Piece], pad: Pad, known: Option<&Pads>) -> Result<(), Fault>
        ensures ok { OnOk result (IsInPlace self.old (Input pad)
            × AddsForm (option_copied known.entry) self.old (Input pad) self.new) }
        ensures err { IfErr result
            (λ e. IsFault e (FormFault (option_copied known.entry) self.old line.now (Input pad))) }
    {
        if !self.is_new_pad(pad.name.bytes()) {
            return Err(Fault::Breaks(1, start_of(line)));
        }
        if !is_known_input(known, &pad) {
            return Err(Fault::Breaks(2, second_of(line)));
        }
        self.inputs.push(pad)?;
        Ok(())
    }

    fn add_output(&mut self, line: &[Piece], pad: Pad, known: Option<&Pads>) -> Result<(), Fault>
        ensures ok { OnOk result (IsInPlace self.old (Output pad)
            × AddsForm (option_copied known.entry) self.old (Output pad) self.new) }
        ensures err { IfErr result
            (λ e. IsFault e (FormFault (option_copied known.entry) self.old line.now (Output pad))) }
    {
        if !self.is_new_pad(pad.name.bytes()) {
            return Err(Fault::Breaks(1, start_of(line)));
        }
        if !is_known_output(known, &pad) {
            return Err(Fault::Breaks(2, second_of(line)));
        }
        self.outputs.push(pad)?;
        Ok(())
    }

    fn add_clock(
        &mut self,
        alloc: Global,
        line: &[Piece],
        words: List<Assignment>,
        known: Option<&Pads>,
    ) -> Result<(), Fault>
        requires { length (inputs_of (option_copied known) self.old) < 2 ^ 32 }
        ensures ok { OnOk result (IsInPlace self.old (Clock words.entry)
            × AddsForm (option_copied known.entry) self.old (Clock words.entry) self.new) }
        ensures err { IfErr result
            (λ e. IsFault e (FormFault (option_copied known.entry) self.old line.now (Clock words.entry))) }
    {
        if !are_apart(alloc, words.as_slice())? {
            return Err(Fault::Breaks(1, start_of(line)));
        }
        let given = givens(alloc, self.inputs_of(known), words.as_slice())?;
        self.clocks.push(given)?;
        Ok(())
    }

    /// Adds what a line of these words says, and says else which rule it breaks first.
    pub(crate) fn add(
        &mut self,
        alloc: Global,
        line: &[Piece],
        known: Option<&Pads>,
    ) -> Result<(), Fault>
        requires { length (inputs_of (option_copied known) self.old) < 2 ^ 32 }
        ensures ok { OnOk result (Adds (option_copied known.entry) self.old line.now self.new) }
        ensures err { IfErr result (λ e. IsFault e (FirstIn (option_copied known.entry) self.old line.now)) }
    {
        if self.is_full(line) {
            return Err(Fault::Breaks(4, start_of(line)));
        }
        match read_form(alloc, line)? {
            None => Err(Fault::Breaks(1, start_of(line))),
            Some(Form::Input(pad)) => self.add_input(line, pad, known),
            Some(Form::Output(pad)) => self.add_output(line, pad, known),
            Some(Form::Clock(words)) => self.add_clock(alloc, line, words, known),
        }
    }
}
