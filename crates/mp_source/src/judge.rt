//! Judges source texts.

ghost use Rattle.std.specs.Prelude.{◌≡◌, ◌+◌, ◌^◌, ◌<◌, length, IfOk};
ghost use Rattle.mp_source.specs.Source.{IsSource, OfSource};
ghost use Rattle.mp_base.specs.Refuses.{IsJudged};

use expansion_rules::laws::rules_are_kept;
use form_reader::read_forms;
use mp_base::Refusal;
use mp_checker::Checked;
use mp_syntax::parse;
use std::alloc::Global;
use written_checker::check;
use written_verdict::laws::broken_at_a_place;

/// The checked program that a text spells: the expansion of what is written. Its first broken rule is refused, at its place: those of the text, E1 to E5,
/// in the order in which they are met; then E10 and E11; then E20 to E45, by number and then by offset.
pub fn check_source(alloc: Global, text: &[u8]) -> Result<Checked, Refusal>
    requires { length text.now + 1 < 2 ^ 32 }
    ensures judged { IsJudged (OfSource text.now) result }
    ensures source { IfOk result (λ checked. IsSource text.now checked.program) }
{
    broken_at_a_place();
    rules_are_kept();
    let forms = match read_forms(alloc, text) {
        Ok(forms) => forms,
        Err(refusal) => return Err(refusal),
    };
    let program = match parse(alloc, &forms) {
        Ok(program) => program,
        Err(refusal) => return Err(refusal),
    };
    match check(alloc, program) {
        Ok(checked) => Ok(checked),
        Err(refusal) => Err(refusal),
    }
}
