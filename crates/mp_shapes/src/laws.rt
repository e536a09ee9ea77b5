//! Laws of what nodes stand for: a call of one does nothing, and tells the caller's proof what it ensures.

ghost use Rattle.std.specs.Prelude.{◌⊎◌, List, Option};
ghost use Rattle.mp_base.specs.declared.refusal.Place.{Place};
ghost use Rattle.form_reader.specs.declared.forms.Forms.{Forms};
ghost use Rattle.form_reader.specs.Sound.{IsSound};
ghost use Rattle.mp_shapes.specs.declared.table.Class.{Class};
ghost use Rattle.mp_shapes.specs.Standing.{E10, IsFirstE10, AreClasses};

/// Forms break rule E10 at a first place, or break it nowhere, and then what each node stands for is known.
pub fn shapes_verdict()
    ensures { (f : Forms) → IsSound f
        → ((classes : List (Option Class)) × AreClasses f classes × ((at : Place) → ¬ E10 f at))
        ⊎ ((at : Place) × IsFirstE10 f at) }
{}
