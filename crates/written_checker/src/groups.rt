//! Groups of rules, by number. The error of each is the first broken rule, at its earliest place, or want of memory.

ghost use Rattle.std.specs.Prelude.{IfOk, OnOk, IfErr};
ghost use Rattle.mp_base.specs.declared.refusal.Place as places;
ghost use Rattle.mp_rules.specs.Breaking.{IsEarliest};
ghost use Rattle.mp_program.specs.declared.program.Program as plain;
ghost use Rattle.mp_order.specs.Evaluation.{IsEvaluation};
ghost use Rattle.mp_rules.specs.Rules.{E20, E33};
ghost use Rattle.name_meanings.specs.Table.{IsNameTable};
ghost use Rattle.name_meanings.specs.Meaning as named;
ghost use Rattle.written_meanings.specs.Meanings.{AreMeanings};
ghost use Rattle.written_rules.specs.Breaking.{RefusesFirst, IsUnbroken};
ghost use Rattle.written_frame.specs.Frame.{IsFrame};
ghost use Rattle.written_checker.specs.Kept.{KeepsBelow};

use crate::judge::{judge, refusal};
use mp_base::{Place, Refusal, WEIGHT_LIMIT};
use mp_limits::{
    bit_past_word, crowded_name, deep_process, empty_process, far_process, long_process,
    missing_supply, repeated_pin, uneven_pins, wide_number, without_reset,
};
use mp_names::{Meanings as FrameMeanings, NameTable, repeated_name, set_input};
use mp_order::{Evaluation, evaluation_order};
use mp_program::Program as Frame;
use mp_rules::laws::own_names;
use mp_transfers::{
    missing_stack, repeated_label, second_transfer, transfer_in_always, unknown_label,
};
use mp_written::Program;
use std::alloc::{AllocError, Global};
use written_counts::{many_exprs, weight_within};
use written_frame::laws::same_rules;
use written_meanings::Meanings;
use written_names::{outside_name, taken_name, undefined_name, uneven_use, wrong_sort};

/// Rules E20 to E22.
pub fn judge_names(
    alloc: Global,
    program: &Program,
    meanings: &Meanings,
    frame: &Frame,
    names: &NameTable<'_>,
) -> Result<(), Refusal>
    requires meant { AreMeanings program.now meanings.now }
    requires framed { IsFrame program.now frame.now }
    requires names { IsNameTable frame.now names.now }
    ensures ok { OnOk result (KeepsBelow program.now 23) }
    ensures err { IfErr result (RefusesFirst program.now) }
{
    same_rules();
    judge(program, 20, repeated_name(frame, names))?;
    judge(program, 21, undefined_name(program, meanings, names))?;
    judge(program, 22, wrong_sort(alloc, program, meanings, names)?)
}

/// Rules E23 to E26, which are looked for in the frame.
pub fn judge_numbers(alloc: Global, program: &Program, frame: &Frame) -> Result<(), Refusal>
    requires framed { IsFrame program.now frame.now }
    requires kept { KeepsBelow program.now 23 }
    ensures ok { OnOk result (KeepsBelow program.now 27) }
    ensures err { IfErr result (RefusesFirst program.now) }
{
    same_rules();
    judge(program, 23, wide_number(frame))?;
    judge(program, 24, bit_past_word(frame))?;
    judge(program, 25, repeated_pin(alloc, frame)?)?;
    judge(program, 26, uneven_pins(frame))
}

/// Rules E27 to E32, which are looked for in the frame.
pub fn judge_forms(
    alloc: Global,
    program: &Program,
    frame: &Frame,
    names: &NameTable<'_>,
) -> Result<(), Refusal>
    requires framed { IsFrame program.now frame.now }
    requires names { IsNameTable frame.now names.now }
    requires kept { KeepsBelow program.now 27 }
    ensures ok { OnOk result (KeepsBelow program.now 33) }
    ensures err { IfErr result (RefusesFirst program.now) }
{
    same_rules();
    judge(program, 27, set_input(frame, names))?;
    judge(program, 28, unknown_label(alloc, frame)?)?;
    judge(program, 29, repeated_label(alloc, frame)?)?;
    judge(program, 30, transfer_in_always(alloc, frame)?)?;
    judge(program, 31, missing_stack(alloc, frame)?)?;
    judge(program, 32, second_transfer(alloc, frame)?)
}

// Where an evaluation was given up.
fn closed(evaluation: Evaluation) -> Option<Place>
    ensures { (p : plain.Program) → IsEvaluation p evaluation → IsEarliest (E33 p) result }
{
    match evaluation {
        Evaluation::Order(_) => None,
        Evaluation::Closed(at) => Some(at),
    }
}

// The earliest `setq` in a frame of what reads itself through a chain.
fn closed_chain(
    alloc: Global,
    frame: &Frame,
    frame_meanings: &FrameMeanings,
) -> Result<Option<Place>, AllocError>
    requires meant { named.AreMeanings frame.now frame_meanings.now }
    requires kept { (at : places.Place) → ¬ E20 frame.now at }
    ensures { IfOk result (IsEarliest (E33 frame.now)) }
{
    own_names(frame);
    let evaluation = evaluation_order(alloc, frame, frame_meanings)?;
    Ok(closed(evaluation))
}

/// Rule E33, which is looked for in the frame.
pub fn judge_order(
    alloc: Global,
    program: &Program,
    frame: &Frame,
    frame_meanings: &FrameMeanings,
) -> Result<(), Refusal>
    requires framed { IsFrame program.now frame.now }
    requires meant { named.AreMeanings frame.now frame_meanings.now }
    requires kept { KeepsBelow program.now 33 }
    ensures ok { OnOk result (KeepsBelow program.now 34) }
    ensures err { IfErr result (RefusesFirst program.now) }
{
    same_rules();
    judge(program, 33, closed_chain(alloc, frame, frame_meanings)?)
}

/// Rules E34 to E36, which are looked for in the frame.
pub fn judge_presence(program: &Program, frame: &Frame) -> Result<(), Refusal>
    requires framed { IsFrame program.now frame.now }
    requires kept { KeepsBelow program.now 34 }
    ensures ok { OnOk result (KeepsBelow program.now 37) }
    ensures err { IfErr result (RefusesFirst program.now) }
{
    same_rules();
    judge(program, 34, without_reset(frame))?;
    judge(program, 35, missing_supply(frame))?;
    judge(program, 36, empty_process(frame))
}

/// Rules E37 to E39.
pub fn judge_uses(
    alloc: Global,
    program: &Program,
    meanings: &Meanings,
    frame: &Frame,
    names: &NameTable<'_>,
) -> Result<(), Refusal>
    requires meant { AreMeanings program.now meanings.now }
    requires framed { IsFrame program.now frame.now }
    requires names { IsNameTable frame.now names.now }
    requires kept { KeepsBelow program.now 37 }
    ensures ok { OnOk result (KeepsBelow program.now 40) }
    ensures err { IfErr result (RefusesFirst program.now) }
{
    judge(program, 37, uneven_use(program, meanings))?;
    judge(program, 38, taken_name(alloc, program, names)?)?;
    judge(program, 39, outside_name(program, meanings, names))
}

/// Rules E40 to E43, which are looked for in the frame.
pub fn judge_counts(alloc: Global, program: &Program, frame: &Frame) -> Result<(), Refusal>
    requires framed { IsFrame program.now frame.now }
    requires kept { KeepsBelow program.now 40 }
    ensures ok { OnOk result (KeepsBelow program.now 44) }
    ensures err { IfErr result (RefusesFirst program.now) }
{
    same_rules();
    judge(program, 40, crowded_name(alloc, frame)?)?;
    judge(program, 41, far_process(frame))?;
    judge(program, 42, long_process(frame))?;
    judge(program, 43, deep_process(frame))
}

/// Rules E44 and E45.
pub fn judge_weight(
    alloc: Global,
    program: &Program,
    meanings: &Meanings,
    frame: &Frame,
    frame_meanings: &FrameMeanings,
) -> Result<(), Refusal>
    requires meant { AreMeanings program.now meanings.now }
    requires framed { IsFrame program.now frame.now }
    requires frame_meant { named.AreMeanings frame.now frame_meanings.now }
    requires kept { KeepsBelow program.now 44 }
    ensures ok { OnOk result (IsUnbroken program.now) }
    ensures err { IfErr result (RefusesFirst program.now) }
{
    same_rules();
    own_names(frame);
    match weight_within(
        alloc,
        program,
        meanings,
        frame,
        frame_meanings,
        WEIGHT_LIMIT,
    )? {
        None => Err(refusal(44, program.place)),
        Some(_) => {
            judge(program, 45, many_exprs(alloc, program, meanings)?)?;
            Ok(())
        }
    }
}
