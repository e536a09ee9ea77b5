//! A law of files that are read, for the proofs of crates above.

ghost use Rattle.std.specs.Prelude.{ℕ, List};
ghost use Rattle.cif_form.specs.declared.command.Item.{Item};
ghost use Rattle.cif_form.specs.Scans.{FileScans};
ghost use Rattle.cif_form.specs.Scans.TextEnd.{Whole};
ghost use Rattle.cif_flat.specs.Sound.{IsWellFormed};

/// The commands of a file that breaks no rule of texts may be flattened.
pub fn read_is_well_formed()
    ensures { (text : List ℕ) (items : List Item) → FileScans text items Whole → IsWellFormed items }
{}
