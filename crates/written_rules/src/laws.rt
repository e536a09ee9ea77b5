//! Laws of the rules: a call of one does nothing, and tells the caller's proof what it ensures.

ghost use Rattle.std.specs.Prelude.{◌≡◌, ℕ};
ghost use Rattle.mp_base.specs.declared.refusal.Place.{Place};
ghost use Rattle.mp_written.specs.declared.program.Program.{Program};
ghost use Rattle.written_rules.specs.Breaking.{IsFirst};

/// A program has at most one first broken rule as it is written, and one offset where it is broken.
pub fn one_first_rule()
    ensures { (w : Program) (k l : ℕ) (at there : Place) → IsFirst w k at → IsFirst w l there → (k ≡ l)
        × (at.offset ≡ there.offset) }
{}
