//! Laws of the rules of expansions: a call of one does nothing, and tells the caller's proof what it ensures.

ghost use Rattle.mp_base.specs.declared.refusal.Place.{Place};
ghost use Rattle.mp_program.specs.declared.program.Program as plain;
ghost use Rattle.mp_rules.specs.Breaking as plain_breaking;
ghost use Rattle.mp_written.specs.declared.program.Program as written;
ghost use Rattle.mp_written.specs.Expansion.{IsExpansion};
ghost use Rattle.written_rules.specs.Breaking.{IsUnbroken};
ghost use Rattle.expansion_laws.specs.Lawful.{IsLawfulProgram};
ghost use Rattle.written_rules.specs.Rules.{E21, E37};

/// Where rules E21 and E37 aren't broken, each use is lawful.
pub fn uses_are_lawful()
    ensures { (w : written.Program) → ((at : Place) → ¬ E21 w at) → ((at : Place) → ¬ E37 w at) → IsLawfulProgram w }
{}

/// Where what is written breaks no rule, its expansion breaks none.
pub fn rules_are_kept()
    ensures { (w : written.Program) (p : plain.Program) → IsUnbroken w → IsExpansion w p → plain_breaking.IsUnbroken p }
{}

/// What is written and breaks no rule has an expansion, and that breaks none.
pub fn has_expansion()
    ensures { (w : written.Program) → IsUnbroken w
        → (p : plain.Program) × IsExpansion w p × plain_breaking.IsUnbroken p }
{}
