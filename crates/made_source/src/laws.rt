//! Laws of made sources: a call of one does nothing, and tells the caller's proof what it ensures.

ghost use Rattle.std.specs.Prelude.{ℕ, ◌≤◌, length};
ghost use Rattle.mp_program.specs.declared.program.Program.{Program};
ghost use Rattle.mp_source.specs.Source.{IsSource};
ghost use Rattle.program_maker.specs.Texts.{source_text};
ghost use Rattle.made_program.specs.Made.{IsMade};

use expansion_laws::laws::{counts, weighs};
use expansion_rules::laws::uses_are_lawful;
use form_reader::laws::spelled_is_sound;
use form_text::laws::written_forms_are_spelled;
use made_program::laws::made_programs_are_unbroken;
use mp_syntax::laws::forms_verdict;
use written_frame::laws::{one_frame, same_rules};

/// The source of each number spells a made program, which breaks no rule.
pub fn made_sources_are_sources()
    ensures { (seed : ℕ) → (p : Program) × IsSource (source_text seed) p × IsMade p }
{
    spelled_is_sound();
    written_forms_are_spelled();
    forms_verdict();
    made_programs_are_unbroken();
    one_frame();
    same_rules();
    uses_are_lawful();
    weighs();
    counts();
}

/// The source of each number is short.
pub fn made_sources_are_short()
    ensures { (seed : ℕ) → length (source_text seed) ≤ 2000 }
{}
