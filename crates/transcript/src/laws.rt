//! Laws of transcripts: a call of one does nothing, and tells the caller's proof what it ensures.

ghost use Rattle.std.specs.Prelude.{◌≡◌, ℕ, List};
ghost use Rattle.stimulus.specs.declared.given.Stimulus.{Stimulus};
ghost use Rattle.transcript.specs.Transcript.{IsTranscript};
ghost use Rattle.transcript.specs.Laws.{IsDetermined, CanStep, StepsOn};

use crate::device::Device;

/// Where what a device shows and its next state are determined, so are its transcript and the state after it.
pub fn one_transcript<D: Device>()
    ensures { IsDetermined D.steps → (given : Stimulus) (before v w : D) (text other : List ℕ)
        → IsTranscript D.steps given before v text → IsTranscript D.steps given before w other → (text ≡ other)
        × (v ≡ w) }
{}

/// Where a device that can step can always step again, it has a transcript from each state from which it can.
pub fn transcripts_exist<D: Device>()
    ensures { (given : Stimulus) → StepsOn D.steps (given.pads).inputs → (before : D)
        → CanStep D.steps (given.pads).inputs before
        → (after : D) × (text : List ℕ) × IsTranscript D.steps given before after text }
{}
