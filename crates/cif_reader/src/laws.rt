//! Laws of reading: a call of one does nothing, and tells the caller's proof what it ensures.

ghost use Rattle.std.specs.Prelude.{ℕ, List};
ghost use Rattle.cif_form.specs.declared.command.Item.{Item};
ghost use Rattle.cif_form.specs.Scans.{TextEnd, FileScans};

use cif_form::laws::command_is_found;

/// Every text has commands and an end of its reading: it is read whole, or it breaks a first rule of texts.
pub fn text_verdict()
    ensures { (text : List ℕ) → (items : List Item) × (end : TextEnd) × FileScans text items end }
{
    command_is_found();
}
