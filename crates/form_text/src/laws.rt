//! Laws of the texts of forms: a call of one does nothing, and tells the caller's proof what it ensures.

ghost use Rattle.std.specs.Prelude.{ℕ, List, ◌++◌};
ghost use Rattle.form_reader.specs.Spelling.{Spells};
ghost use Rattle.form_text.specs.Items.{Items, IsWritten, text_of, forms_of};

/// The text of forms that are well formed, with a gap behind it, spells them.
pub fn written_forms_are_spelled()
    ensures { (items : Items) (gap : List ℕ) → IsWritten items gap
        → Spells (text_of items ++ gap) (forms_of items gap) }
{}
