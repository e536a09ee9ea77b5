//! Laws of the rules: a call of one does nothing, and tells the caller's proof what it ensures.

ghost use Rattle.std.specs.Prelude.{◌≡◌, ◌≤◌, ℕ, List, length, Contains};
ghost use Rattle.std.specs.List.Sorted.{IsPermutation};
ghost use Rattle.mp_base.specs.declared.refusal.Place.{Place};
ghost use Rattle.mp_program.specs.declared.program.Process.{Process};
ghost use Rattle.mp_program.specs.declared.program.Program as spec;
ghost use Rattle.mp_program.specs.Effects.{Effect, effects_of};
ghost use Rattle.mp_program.specs.State.{Seat};
ghost use Rattle.mp_program.specs.Step.{next_seat};
ghost use Rattle.mp_base.specs.Entries.{IsAt};
ghost use Rattle.mp_rules.specs.Moves.{moves};
ghost use Rattle.mp_rules.specs.Naming.{namings, OwnNames};
ghost use Rattle.mp_rules.specs.Rules.{E20, E30, E32, E40};
ghost use Rattle.mp_rules.specs.Breaking.{Breaks, IsFirst};
ghost use Rattle.mp_rules.specs.Places.{HasPlace};
ghost use Rattle.mp_rules.specs.declared.limits.TheConstants.{NAMING_LIMIT};

use mp_program::Program;
use mp_program::laws::{effects, sound};

/// A program has at most one first broken rule, and one offset where it is broken.
pub fn one_first_rule()
    ensures { (p : spec.Program) (k l : ℕ) (at there : Place) → IsFirst p k at → IsFirst p l there → (k ≡ l)
        × (at.offset ≡ there.offset) }
{}

/// A rule is broken at the place of something in the program.
pub fn broken_at_a_place()
    ensures { (p : spec.Program) (k : ℕ) (at : Place) → Breaks p k at → HasPlace p at }
{}

/// Where no name is repeated, no definition stands before one of its name.
pub fn own_names(program: &Program)
    requires { (at : Place) → ¬ E20 program.now at }
    ensures { OwnNames program.now }
{}

/// Where E40 isn't broken, there aren't more named definitions and processes than there may be.
pub fn few_namings()
    ensures { (p : spec.Program) → ((at : Place) → ¬ E40 p at) → length (namings p) ≤ NAMING_LIMIT }
{}

/// Where rule E32 isn't broken, the active form of a process moves it once at most.
pub fn one_move(program: &Program)
    requires { (at : Place) → ¬ E32 program.now at }
    ensures { (env : List ℕ) (k : ℕ) (q : Process) (f : ℕ) → IsAt program.now.processes k q → Contains q.forms f
        → moves (effects_of program.now env f) ≤ 1 }
{
    sound(program);
    effects(program);
}

/// Where rule E30 isn't broken, no form of an `always` moves a process.
pub fn no_move(program: &Program)
    requires { (at : Place) → ¬ E30 program.now at }
    ensures { (env : List ℕ) (f : ℕ) → Contains program.now.always f → moves (effects_of program.now env f) ≡ 0 }
{
    sound(program);
    effects(program);
}

/// Where a process is next doesn't depend on the order of effects of which at most one moves it.
pub fn seat_in_any_order()
    ensures { (q : Process) (s : Seat) (es fs : List Effect) → moves es ≤ 1 → IsPermutation es fs
        → next_seat q s es ≡ next_seat q s fs }
{}
