//! Laws of expansions: a call of one does nothing, and tells the caller's proof what it ensures.

ghost use Rattle.std.specs.Prelude.{◌≡◌, ◌≤◌, length};
ghost use Rattle.mp_base.specs.declared.limits.TheConstants.{WEIGHT_LIMIT};
ghost use Rattle.mp_program.specs.declared.program.Program as plain;
ghost use Rattle.mp_program.specs.Weight as plain_weight;
ghost use Rattle.mp_written.specs.declared.program.Program as written;
ghost use Rattle.mp_written.specs.Expansion.{IsExpansion, all_pieces};
ghost use Rattle.mp_written.specs.Weight.{weight};
ghost use Rattle.expansion_laws.specs.Lawful.{IsLawfulProgram};

/// An expansion weighs what is stated of the program as it is written.
pub fn weighs()
    ensures { (w : written.Program) (p : plain.Program) → IsLawfulProgram w → IsExpansion w p
        → plain_weight.weight p ≡ weight w }
{}

/// An expansion has as many expressions as all that is written becomes.
pub fn counts()
    ensures { (w : written.Program) (p : plain.Program) → IsExpansion w p → length p.exprs ≡ length (all_pieces w) }
{}

/// A program in which each use is lawful, and whose expansion isn't too heavy, has an expansion.
pub fn exists()
    ensures { (w : written.Program) → IsLawfulProgram w → weight w ≤ WEIGHT_LIMIT
        → (p : plain.Program) × IsExpansion w p }
{}
