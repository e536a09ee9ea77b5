//! Laws of the shape of a program.

ghost use Rattle.std.specs.Prelude.{◌≡◌, ◌⊎◌, ℕ};
ghost use Rattle.form_reader.specs.declared.forms.Forms.{Forms};
ghost use Rattle.form_reader.specs.Sound.{IsSound, HasSymbols};
ghost use Rattle.mp_base.specs.declared.refusal.Place.{Place};
ghost use Rattle.mp_written.specs.declared.program.Program.{Program};
ghost use Rattle.mp_shapes.specs.Standing.{E10};
ghost use Rattle.mp_syntax.specs.Shape.{E11, IsFirst, IsShape};

use mp_shapes::laws::shapes_verdict;

/// Forms are the shape of one program at most.
pub fn one_program()
    ensures { (f : Forms) (p q : Program) → IsShape f p → IsShape f q → p ≡ q }
{}

/// Forms that are the shape of a program break neither E10 nor E11.
pub fn shaped_is_unbroken()
    ensures { (f : Forms) (p : Program) (at : Place) → IsShape f p → ¬ (E10 f at ⊎ E11 f at) }
{}

/// Forms have the shape of a program, or break rule E10 or E11 first, at a place.
pub fn forms_verdict()
    ensures { (f : Forms) → IsSound f → HasSymbols f
        → ((p : Program) × IsShape f p) ⊎ ((k : ℕ) × (at : Place) × IsFirst f k at) }
{
    shapes_verdict();
}
