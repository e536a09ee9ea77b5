//! Laws of verdicts: a call of one does nothing, and tells the caller's proof what it ensures.

ghost use Rattle.std.specs.Prelude.{◌⊎◌, ℕ};
ghost use Rattle.mp_base.specs.declared.refusal.Place.{Place};
ghost use Rattle.mp_written.specs.declared.program.Program.{Program};
ghost use Rattle.written_rules.specs.Breaking.{Breaks, IsUnbroken, IsFirst};
ghost use Rattle.written_verdict.specs.Places.{HasPlace};

use mp_order::laws::chains;
use mp_program::laws::all_sound;
use mp_rules::laws::broken_at_a_place as plain_broken_at_a_place;
use written_frame::laws::{one_frame, same_rules};

/// A program breaks none of its rules as it is written, or one of them first, at a place.
pub fn written_verdict()
    ensures { (w : Program) → IsUnbroken w ⊎ ((k : ℕ) × (at : Place) × IsFirst w k at) }
{
    all_sound();
    chains();
    one_frame();
    same_rules();
}

/// A rule is broken at the place of something in the program.
pub fn broken_at_a_place()
    ensures { (w : Program) (k : ℕ) (at : Place) → Breaks w k at → HasPlace w at }
{
    plain_broken_at_a_place();
    one_frame();
    same_rules();
}
