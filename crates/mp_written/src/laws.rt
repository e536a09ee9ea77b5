//! Laws of programs as they are written: a call of one does nothing, and tells the caller's proof what it ensures.

ghost use Rattle.std.specs.Prelude.{◌≡◌};
ghost use Rattle.mp_program.specs.declared.program.Program as plain;
ghost use Rattle.mp_written.specs.declared.program.Program as written;
ghost use Rattle.mp_written.specs.Expansion.{IsExpansion};
ghost use Rattle.mp_written.specs.Sound.{IsApart, IsSound};

/// The indices of operands and bodies are in range, and operands stand behind what they stand in.
pub fn sound()
    ensures { (w : written.Program) → IsSound w }
{}

/// Each expression stands in one place at most.
pub fn tree()
    ensures { (w : written.Program) → IsApart w }
{}

/// A program has one expansion at most.
pub fn one_expansion()
    ensures { (w : written.Program) (p q : plain.Program) → IsExpansion w p → IsExpansion w q → p ≡ q }
{}
