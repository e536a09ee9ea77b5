//! Laws of frames: a call of one does nothing, and tells the caller's proof what it ensures.

ghost use Rattle.std.specs.Prelude.{◌≡◌, ℕ};
ghost use Rattle.mp_program.specs.declared.program.Program as plain;
ghost use Rattle.mp_written.specs.declared.program.Program as written;
ghost use Rattle.written_frame.specs.Frame.{IsFrame};
ghost use Rattle.written_frame.specs.SameRules.{HaveSameRules};

/// Each program has exactly one frame.
pub fn one_frame()
    ensures { (w : written.Program) → (s : plain.Program) × IsFrame w s × ((q : plain.Program) → IsFrame w q → q ≡ s) }
{}

/// A program and its frame break the same rules at the same places, but for those of what stands in functions and uses.
pub fn same_rules()
    ensures { (w : written.Program) (s : plain.Program) → IsFrame w s → HaveSameRules w s }
{}
