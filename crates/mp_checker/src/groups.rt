//! Groups of rules, by number. The error of each is the first broken rule, at its earliest place, or want of memory.

ghost use Rattle.std.specs.Prelude.{◌≡◌, OnOk, IfOk, IfErr};
ghost use Rattle.mp_program.specs.Reads.{IsOrder};
ghost use Rattle.mp_program.specs.Weight.{weight};
ghost use Rattle.mp_rules.specs.Breaking.{RefusesFirst, IsUnbroken};
ghost use Rattle.mp_rules.specs.Naming.{OwnNames};
ghost use Rattle.name_meanings.specs.Meaning.{AreMeanings};
ghost use Rattle.name_meanings.specs.Table.{IsNameTable};
ghost use Rattle.mp_checker.specs.Kept.{KeepsBelow};

use crate::judge::{judge, refusal};
use mp_base::{List, Refusal, WEIGHT_LIMIT};
use mp_limits::{
    bit_past_word, crowded_name, deep_process, empty_process, far_process, long_process,
    many_exprs, missing_supply, repeated_pin, uneven_pins, wide_number, without_reset,
};
use mp_names::{Meanings, NameTable, repeated_name, set_input, undefined_name, wrong_sort};
use mp_order::{Evaluation, evaluation_order};
use mp_program::Program;
use mp_transfers::{
    missing_stack, repeated_label, second_transfer, transfer_in_always, unknown_label,
};
use mp_weight::weight_within;
use std::alloc::Global;

/// Rules E20 to E22.
pub fn judge_names(program: &Program, names: &NameTable<'_>) -> Result<(), Refusal>
    requires { IsNameTable program.now names.now }
    ensures ok { OnOk result (KeepsBelow program.now 23) }
    ensures err { IfErr result (RefusesFirst program.now) }
{
    judge(program, 20, repeated_name(program, names))?;
    judge(program, 21, undefined_name(program, names))?;
    judge(program, 22, wrong_sort(program, names))
}

/// Rules E23 to E26.
pub fn judge_numbers(alloc: Global, program: &Program) -> Result<(), Refusal>
    requires { KeepsBelow program.now 23 }
    ensures ok { OnOk result (KeepsBelow program.now 27) }
    ensures err { IfErr result (RefusesFirst program.now) }
{
    judge(program, 23, wide_number(program))?;
    judge(program, 24, bit_past_word(program))?;
    judge(program, 25, repeated_pin(alloc, program)?)?;
    judge(program, 26, uneven_pins(program))
}

/// Rules E27 to E32.
pub fn judge_forms(alloc: Global, program: &Program, names: &NameTable<'_>) -> Result<(), Refusal>
    requires names { IsNameTable program.now names.now }
    requires kept { KeepsBelow program.now 27 }
    ensures ok { OnOk result (KeepsBelow program.now 33) }
    ensures err { IfErr result (RefusesFirst program.now) }
{
    judge(program, 27, set_input(program, names))?;
    judge(program, 28, unknown_label(alloc, program)?)?;
    judge(program, 29, repeated_label(alloc, program)?)?;
    judge(program, 30, transfer_in_always(alloc, program)?)?;
    judge(program, 31, missing_stack(alloc, program)?)?;
    judge(program, 32, second_transfer(alloc, program)?)
}

/// Rule E33, and an order of evaluation.
pub fn judge_order(
    alloc: Global,
    program: &Program,
    meanings: &Meanings,
) -> Result<List<u32>, Refusal>
    requires meant { AreMeanings program.now meanings.now }
    requires own { OwnNames program.now }
    requires kept { KeepsBelow program.now 33 }
    ensures ok { IfOk result (λ order. IsOrder program.now order × KeepsBelow program.now 34) }
    ensures err { IfErr result (RefusesFirst program.now) }
{
    match evaluation_order(alloc, program, meanings)? {
        Evaluation::Order(order) => Ok(order),
        Evaluation::Closed(at) => Err(refusal(33, at)),
    }
}

/// Rules E34 to E36.
pub fn judge_presence(program: &Program) -> Result<(), Refusal>
    requires { KeepsBelow program.now 34 }
    ensures ok { OnOk result (KeepsBelow program.now 37) }
    ensures err { IfErr result (RefusesFirst program.now) }
{
    judge(program, 34, without_reset(program))?;
    judge(program, 35, missing_supply(program))?;
    judge(program, 36, empty_process(program))
}

/// Rules E40 to E43.
pub fn judge_counts(alloc: Global, program: &Program) -> Result<(), Refusal>
    requires { KeepsBelow program.now 37 }
    ensures ok { OnOk result (KeepsBelow program.now 44) }
    ensures err { IfErr result (RefusesFirst program.now) }
{
    judge(program, 40, crowded_name(alloc, program)?)?;
    judge(program, 41, far_process(program))?;
    judge(program, 42, long_process(program))?;
    judge(program, 43, deep_process(program))
}

/// Rules E44 and E45, and the weight.
pub fn judge_weight(alloc: Global, program: &Program, meanings: &Meanings) -> Result<u32, Refusal>
    requires meant { AreMeanings program.now meanings.now }
    requires own { OwnNames program.now }
    requires kept { KeepsBelow program.now 44 }
    ensures ok { IfOk result (λ found. (found ≡ weight program.now) × IsUnbroken program.now) }
    ensures err { IfErr result (RefusesFirst program.now) }
{
    match weight_within(alloc, program, meanings, WEIGHT_LIMIT)? {
        None => Err(refusal(44, program.place)),
        Some(weight) => {
            judge(program, 45, many_exprs(program))?;
            Ok(weight)
        }
    }
}
