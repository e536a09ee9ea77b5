//! Laws of made stimuli: a call of one does nothing, and tells the caller's proof what it ensures.

ghost use Rattle.std.specs.Prelude.{ℕ, ◌≡◌, ◌≤◌, Some, length};
ghost use Rattle.mp_base.specs.declared.pad.Pads.{Pads};
ghost use Rattle.stimulus.specs.declared.given.Stimulus.{Stimulus};
ghost use Rattle.stimulus.specs.Reading.{IsStimulus};
ghost use Rattle.program_maker.specs.Texts.{stimulus_text};
ghost use Rattle.made_stimulus.specs.Clocks.{AreMadeInputs, made_clocks};

/// The stimulus of each number is one for the pads of its source: it breaks no rule, and gives these 65 clocks.
pub fn made_stimuli_are_stimuli()
    ensures { (seed : ℕ) (pads : Pads) → AreMadeInputs pads.inputs
        → (s : Stimulus) × IsStimulus (stimulus_text seed) (Some pads) s × (s.clocks ≡ made_clocks seed) }
{}

/// The stimulus of each number is short.
pub fn made_stimuli_are_short()
    ensures { (seed : ℕ) → length (stimulus_text seed) ≤ 2000 }
{}
