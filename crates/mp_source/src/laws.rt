//! Laws of source texts: a call of one does nothing, and tells the caller's proof what it ensures.

ghost use Rattle.std.specs.Prelude.{◌≡◌, ℕ, List, Option};
ghost use Rattle.mp_base.specs.declared.refusal.Broken.{Broken};
ghost use Rattle.mp_program.specs.declared.program.Program.{Program};
ghost use Rattle.mp_source.specs.Source.{IsSource, OfSource};

use expansion_rules::laws::has_expansion;
use form_reader::laws::{
    one_first_rule as one_first_of_text, one_spelling, spelled_breaks_nothing, spelled_is_sound,
    text_verdict,
};
use mp_syntax::laws::{forms_verdict, one_program, shaped_is_unbroken};
use mp_written::laws::one_expansion;
use written_rules::laws::one_first_rule as one_first_of_program;
use written_verdict::laws::{broken_at_a_place, written_verdict};

/// A text is the source of at most one program.
pub fn one_source()
    ensures { (text : List ℕ) (p q : Program) → IsSource text p → IsSource text q → p ≡ q }
{
    one_spelling();
    one_program();
    one_expansion();
}

/// A text breaks no rule, or has one first broken rule at one place.
pub fn one_verdict()
    ensures { (text : List ℕ) (a b : Option Broken) → OfSource text a → OfSource text b → a ≡ b }
{
    one_spelling();
    one_program();
    spelled_breaks_nothing();
    shaped_is_unbroken();
    one_first_of_text();
    one_first_of_program();
}

/// A text has a verdict: it spells a program that breaks no rule, or breaks a rule first, at a place.
pub fn source_verdict()
    ensures { (text : List ℕ) → (verdict : Option Broken) × OfSource text verdict }
{
    text_verdict();
    spelled_is_sound();
    forms_verdict();
    written_verdict();
    has_expansion();
    broken_at_a_place();
}
