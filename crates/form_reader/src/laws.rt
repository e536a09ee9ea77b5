//! What the spelling of forms determines.

ghost use Rattle.std.specs.Prelude.{◌≡◌, ◌⊎◌, ℕ, List};
ghost use Rattle.form_reader.specs.declared.forms.Forms.{Forms};
ghost use Rattle.form_reader.specs.Sound.{IsSound, HasSymbols};
ghost use Rattle.form_reader.specs.Spelling.{Spells};
ghost use Rattle.form_reader.specs.Rules.{Breaks, IsFirst};

/// A text spells at most one value of forms.
pub fn one_spelling()
    ensures { (text : List ℕ) (f g : Forms) → Spells text f → Spells text g → f ≡ g }
{}

/// A text that spells forms breaks none of the rules E1 to E5.
pub fn spelled_breaks_nothing()
    ensures { (text : List ℕ) (f : Forms) (k o : ℕ) → Spells text f → ¬ Breaks text k o }
{}

/// A text has at most one first broken rule.
pub fn one_first_rule()
    ensures { (text : List ℕ) (k o l q : ℕ) → IsFirst text k o → IsFirst text l q → (k ≡ l) × (o ≡ q) }
{}

/// A text spells forms, or breaks one of the rules E1 to E5 first.
pub fn text_verdict()
    ensures { (text : List ℕ) → ((f : Forms) × Spells text f) ⊎ ((k o : ℕ) × IsFirst text k o) }
{}

/// The forms that a text spells are in text order, and their symbols are no numerals.
pub fn spelled_is_sound()
    ensures sound { (text : List ℕ) (f : Forms) → Spells text f → IsSound f }
    ensures symbols { (text : List ℕ) (f : Forms) → Spells text f → HasSymbols f }
{}
