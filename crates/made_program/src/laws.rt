//! Laws of made programs: a call of one does nothing, and tells the caller's proof what it ensures.

ghost use Rattle.mp_program.specs.declared.program.Program.{Program};
ghost use Rattle.mp_rules.specs.Breaking.{IsUnbroken};
ghost use Rattle.made_program.specs.Made.{IsMade};

/// A made program breaks no rule.
pub fn made_programs_are_unbroken()
    ensures { (p : Program) → IsMade p → IsUnbroken p }
{}
