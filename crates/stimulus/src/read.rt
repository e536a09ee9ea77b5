//! Reading a stimulus file.

ghost use Rattle.std.specs.Prelude.{◌≡◌, ◌+◌, ◌<◌, ◌^◌, [], length, OnOk, IfOk, IfErr, IfSome, true};
ghost use Rattle.std.specs.Option.{option_copied};
ghost use Rattle.mp_base.specs.Lines.{place_at};
ghost use Rattle.mp_base.specs.PadNames.{ArePadNames, names_of};
ghost use Rattle.mp_base.specs.Refuses.{IsJudged};
ghost use Rattle.mp_base.specs.declared.refusal.Family.TheVariants.{S};
ghost use Rattle.stimulus_lines.specs.Words.{lines, kept_before};
ghost use Rattle.stimulus.specs.Rules.{inputs_of, outputs_of, IsFault};
ghost use Rattle.stimulus.specs.Reading.{nothing, Reads, FirstBroken, IsStimulus, OfPads};
ghost use Rattle.stimulus.specs.Fitting.{are_fitting};

use crate::fault::Fault;
use crate::given::Stimulus;
use crate::reading::Reading;
use mp_base::{Broken, Family, List, NoMemory, Pads, Place, Refusal, Rule, Spot};
use std::alloc::Global;
use stimulus_lines::{Piece, is_skipped, line_at, line_end, take_words};

/// Adds what a line says, unless it is skipped.
fn add_line(
    reading: &mut Reading,
    alloc: Global,
    words: &[Piece],
    known: Option<&Pads>,
) -> Result<(), Fault>
    requires { length (inputs_of (option_copied known) reading.old) < 2 ^ 32 }
    ensures ok { OnOk result (Reads (option_copied known.entry) reading.old (kept_before words.now []) reading.new) }
    ensures err { IfErr result
        (λ e. IsFault e (FirstBroken (option_copied known.entry) reading.old (kept_before words.now []))) }
{
    if is_skipped(words) {
        return Ok(());
    }
    reading.add(alloc, words, known)
}

fn read_lines(alloc: Global, text: &[u8], known: Option<&Pads>) -> Result<Reading, Fault>
    requires short { length text.now + 1 < 2 ^ 32 }
    requires few { IfSome known (λ pads. length pads.now.inputs < 2 ^ 32) }
    ensures ok { IfOk result (Reads (option_copied known.entry) nothing (lines text.now)) }
    ensures err { IfErr result (λ e. IsFault e (FirstBroken (option_copied known.entry) nothing (lines text.now))) }
{
    let mut reading = Reading::new(alloc);
    let mut words = Vec::new(alloc);
    let mut start = 0;
    'lines: loop {
        let end = line_end(text, start);
        take_words(&mut words, line_at(text, start, end), start as u32)?;
        add_line(&mut reading, alloc, words.as_slice(), known)?;
        if end == text.len() {
            return Ok(reading);
        }
        start = end + 1;
    }
}

/// The place of an offset.
fn place_of(text: &[u8], offset: u32) -> Place
    requires { length text.now + 1 < 2 ^ 32 }
    ensures { result ≡ place_at text.now offset }
{
    let mut line = 1;
    let mut column = 1;
    for byte in &text[..text.len().min(offset as usize)] {
        if *byte == b'\n' {
            line += 1;
            column = 1;
        } else {
            column += 1;
        }
    }
    Place {
        offset: u64::from(offset),
        line,
        column,
    }
}

/// The stimulus of what was read.
fn stimulus_of(alloc: Global, reading: Reading, known: Option<&Pads>) -> Result<Stimulus, NoMemory>
    requires named { ArePadNames (names_of reading.inputs reading.outputs (λ pad. pad.name)) }
    requires fitting { are_fitting (inputs_of (option_copied known) reading) reading.clocks ≡ true }
    ensures inputs { IfOk result (λ s. s.pads.inputs ≡ inputs_of (option_copied known.entry) reading) }
    ensures outputs { IfOk result (λ s. s.pads.outputs ≡ outputs_of (option_copied known.entry) reading) }
    ensures clocks { IfOk result (λ s. s.clocks ≡ reading.clocks) }
{
    let Reading {
        inputs,
        outputs,
        clocks,
    } = reading;
    match known {
        Some(pads) => {
            let pads = pads.copy(alloc)?;
            Ok(Stimulus { pads, clocks })
        }
        None => {
            let pads = Pads { inputs, outputs };
            Ok(Stimulus { pads, clocks })
        }
    }
}

/// Reads a stimulus file, whose pads are those that are known, or else those of its header.
///
/// # Errors
///
/// S1 to S4, the first that the text breaks, at its place: line by line, and in a line S4, S1, then S2 and S3 word by
/// word.
pub fn read_stimulus(alloc: Global, bytes: &[u8], known: Option<&Pads>) -> Result<Stimulus, Refusal>
    requires short { length bytes.now + 1 < 2 ^ 32 }
    requires few { IfSome known (λ pads. length pads.now.inputs < 2 ^ 32) }
    ensures ok { IfOk result (IsStimulus bytes.now (option_copied known.entry)) }
    ensures judged { IsJudged (OfPads (option_copied known.entry) bytes.now) result }
{
    match read_lines(alloc, bytes, known) {
        Ok(reading) => Ok(stimulus_of(alloc, reading, known)?),
        Err(Fault::NoMemory) => Err(Refusal::NoMemory),
        Err(Fault::Breaks(number, offset)) => {
            let rule = Rule {
                family: Family::S,
                number,
            };
            let spot = Spot::At(place_of(bytes, offset));
            Err(Refusal::Broken(Broken { rule, spot }))
        }
    }
}
