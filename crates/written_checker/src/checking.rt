//! Programs as they are written: judged by all rules, and expanded.

ghost use Rattle.std.specs.Prelude.{OnOk, IfOk, IfErr};
ghost use Rattle.mp_base.specs.Refuses.{IsJudged};
ghost use Rattle.mp_written.specs.Expansion.{IsExpansion};
ghost use Rattle.written_frame.specs.Frame.{IsFrame};
ghost use Rattle.written_meanings.specs.Meanings.{AreMeanings};
ghost use Rattle.written_rules.specs.Breaking.{IsUnbroken, OfWritten, RefusesFirst};

use crate::groups::{
    judge_counts, judge_forms, judge_names, judge_numbers, judge_order, judge_presence, judge_uses,
    judge_weight,
};
use expansion::expand;
use expansion_rules::laws::rules_are_kept;
use mp_base::Refusal;
use mp_checker::{Checked, check as check_plain};
use mp_names::{NameTable, meanings_of as frame_meanings_of};
use mp_program::Program as Frame;
use mp_written::Program;
use std::alloc::Global;
use written_frame::frame;
use written_meanings::{Meanings, meanings_of};

// All rules, by the program's frame.
fn judge_framed(
    alloc: Global,
    program: &Program,
    meanings: &Meanings,
    frame: &Frame,
) -> Result<(), Refusal>
    requires meant { AreMeanings program.now meanings.now }
    requires framed { IsFrame program.now frame.now }
    ensures ok { OnOk result (IsUnbroken program.now) }
    ensures err { IfErr result (RefusesFirst program.now) }
{
    let names = NameTable::of(alloc, frame)?;
    judge_names(alloc, program, meanings, frame, &names)?;
    judge_numbers(alloc, program, frame)?;
    judge_forms(alloc, program, frame, &names)?;
    let frame_meanings = frame_meanings_of(alloc, frame, &names)?;
    judge_order(alloc, program, frame, &frame_meanings)?;
    judge_presence(program, frame)?;
    judge_uses(alloc, program, meanings, frame, &names)?;
    judge_counts(alloc, program, frame)?;
    judge_weight(alloc, program, meanings, frame, &frame_meanings)
}

// All rules; and what the names of a program mean that breaks none.
fn judged(alloc: Global, program: &Program) -> Result<Meanings, Refusal>
    ensures ok { IfOk result (λ meanings. AreMeanings program.now meanings × IsUnbroken program.now) }
    ensures err { IfErr result (RefusesFirst program.now) }
{
    let meanings = meanings_of(alloc, program)?;
    let framed = frame(alloc, program)?;
    judge_framed(alloc, program, &meanings, &framed)?;
    Ok(meanings)
}

/// Checks a program as it is written against rules E20 to E45, and then its expansion, which keeps them. The error is the
/// first rule that the program breaks, by number, at the earliest place by offset, or want of memory.
pub fn check(alloc: Global, program: Program) -> Result<Checked, Refusal>
    ensures expanded { IfOk result (λ checked. IsExpansion program checked.program) }
    ensures judged { IsJudged (OfWritten program) result }
{
    let meanings = judged(alloc, &program)?;
    let expanded = expand(alloc, program, &meanings)?;
    rules_are_kept();
    check_plain(alloc, expanded)
}
