//! Links and swaps of parts at the pads of a source, judged.

ghost use Rattle.std.specs.Prelude.{map, IfOk, string_bytes};
ghost use Rattle.mp_program.specs.Pads.{ArePadsOf};
ghost use Rattle.mp_base.specs.Refuses.{IsJudged};
ghost use Rattle.board.specs.Plans.{OfPlan};
ghost use Rattle.board_command.specs.Linked.{IsPlanFor, setting_of};

use board::{NamedPart, Plan, read_plan};
use mp_base::Refusal;
use mp_checker::Checked;
use mp_rules::laws::few_namings;
use std::alloc::Global;

/// Judges links and swaps for a checked program and so many clocks.
pub(crate) fn judge_plan(
    alloc: Global,
    words: &[String],
    parts: &[NamedPart],
    checked: &Checked,
    clocks: u32,
) -> Result<Plan, Refusal>
    ensures judged { IsJudged (OfPlan (setting_of (map (λ p. string_bytes p.name) parts.now) clocks checked.now.pads)
        (map string_bytes words.now)) result }
    ensures planned { IfOk result (IsPlanFor (map (λ p. string_bytes p.name) parts.now) clocks
        (map string_bytes words.now) checked.now.program checked.now.pads) }
    ensures padded { ArePadsOf checked.now.program checked.now.pads }
{
    checked.unbroken();
    few_namings();
    let pads = checked.pads();
    if parts.len() > u32::MAX as usize {
        return Err(Refusal::NoMemory);
    }
    read_plan(alloc, words, parts, pads, clocks)
}
