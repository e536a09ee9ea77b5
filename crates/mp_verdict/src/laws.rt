//! Laws of verdicts: a call of one does nothing, and tells the caller's proof what it ensures.

ghost use Rattle.std.specs.Prelude.{◌⊎◌, ℕ};
ghost use Rattle.mp_base.specs.declared.refusal.Place.{Place};
ghost use Rattle.mp_program.specs.declared.program.Program.{Program};
ghost use Rattle.mp_rules.specs.Breaking.{IsUnbroken, IsFirst};

use mp_order::laws::chains;
use mp_program::laws::all_sound;

/// A program breaks none of its rules, or one of them first, at a place.
pub fn program_verdict()
    ensures { (p : Program) → IsUnbroken p ⊎ ((k : ℕ) × (at : Place) × IsFirst p k at) }
{
    all_sound();
    chains();
}
