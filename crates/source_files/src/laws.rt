//! Laws of files: a call of one does nothing, and tells the caller's proof what it ensures.

ghost use Rattle.std.specs.Prelude.{◌≡◌, ℕ, List, Option, None};
ghost use Rattle.outside.specs.Outside.{Files};
ghost use Rattle.outcome.specs.Order.{Fault};
ghost use Rattle.source_files.specs.Faults.{PadsFault, RunFault, SourceFault};

use mp_source::laws::{one_source, one_verdict, source_verdict};
use stimulus::laws::{one_first_rule, stimulus_verdict};

/// Sources, sources with a stimulus, and stimuli with pads of their own have one first fault at most.
pub fn one_fault()
    ensures source { (source : List ℕ) (files : Files) (a b : Option Fault) → SourceFault source files a
        → SourceFault source files b → a ≡ b }
    ensures run { (source stimulus : List ℕ) (files : Files) (a b : Option Fault) → RunFault source stimulus files a
        → RunFault source stimulus files b → a ≡ b }
    ensures headed { (stimulus : List ℕ) (files : Files) (a b : Option Fault) → PadsFault None stimulus files a
        → PadsFault None stimulus files b → a ≡ b }
{
    one_source();
    one_verdict();
    one_first_rule();
}

/// Sources, sources with a stimulus, and stimuli with pads of their own have a verdict on all files: a first fault, or
/// that there is none.
pub fn a_fault()
    ensures source { (source : List ℕ) (files : Files) → (fault : Option Fault) × SourceFault source files fault }
    ensures run { (source stimulus : List ℕ) (files : Files)
        → (fault : Option Fault) × RunFault source stimulus files fault }
    ensures headed { (stimulus : List ℕ) (files : Files)
        → (fault : Option Fault) × PadsFault None stimulus files fault }
{
    source_verdict();
    stimulus_verdict();
}
