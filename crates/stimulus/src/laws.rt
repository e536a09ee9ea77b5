//! What the definitions say of every text.

ghost use Rattle.std.specs.Prelude.{◌≡◌, ◌⊎◌, ℕ, List, Option};
ghost use Rattle.mp_base.specs.declared.pad.Pads.{Pads};
ghost use Rattle.mp_base.specs.declared.refusal.Place.{Place};
ghost use Rattle.stimulus.specs.declared.given.Stimulus.{Stimulus};
ghost use Rattle.stimulus.specs.Reading.{IsStimulus, IsFirst};

/// A text spells at most one stimulus.
pub fn one_stimulus()
    ensures inputs { (text : List ℕ) (known : Option Pads) (s t : Stimulus) → IsStimulus text known s
        → IsStimulus text known t → s.pads.inputs ≡ t.pads.inputs }
    ensures outputs { (text : List ℕ) (known : Option Pads) (s t : Stimulus) → IsStimulus text known s
        → IsStimulus text known t → s.pads.outputs ≡ t.pads.outputs }
    ensures clocks { (text : List ℕ) (known : Option Pads) (s t : Stimulus) → IsStimulus text known s
        → IsStimulus text known t → s.clocks ≡ t.clocks }
{}

/// A text breaks at most one rule first, at one place, and none where it spells a stimulus.
pub fn one_first_rule()
    ensures first { (text : List ℕ) (known : Option Pads) (j k : ℕ) (a b : Place) → IsFirst text known j a
        → IsFirst text known k b → (j ≡ k) × (a ≡ b) }
    ensures whole { (text : List ℕ) (known : Option Pads) (s : Stimulus) (k : ℕ) (at : Place) → IsStimulus text known s
        → ¬ IsFirst text known k at }
{}

/// A text spells a stimulus, or breaks a rule first, at a place.
pub fn stimulus_verdict()
    ensures { (text : List ℕ) (known : Option Pads)
        → ((s : Stimulus) × IsStimulus text known s) ⊎ ((k : ℕ) × (at : Place) × IsFirst text known k at) }
{}
