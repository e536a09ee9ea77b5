//! Laws of orders: a call of one does nothing, and tells the caller's proof what it ensures.

ghost use Rattle.std.specs.Prelude.{◌⊎◌, ℕ, List};
ghost use Rattle.mp_base.specs.declared.refusal.Place.{Place};
ghost use Rattle.mp_program.specs.declared.program.Program as spec;
ghost use Rattle.mp_program.specs.Environment.{IsEnvironment};
ghost use Rattle.mp_program.specs.Exactly.{ExactlyOne};
ghost use Rattle.mp_program.specs.Reads.{Chain, IsOrder};
ghost use Rattle.mp_program.specs.State.{State, IsState};
ghost use Rattle.mp_program.specs.Trace.{IsTrace};
ghost use Rattle.mp_rules.specs.Rules.{E33, E36};

use mp_fitting::zero_is_a_state;
use mp_program::{Program, laws};

/// A chain of reads runs from one definition to another, or none does.
pub fn chains()
    ensures { (p : spec.Program) (a b : ℕ) → Chain p a b ⊎ ¬ Chain p a b }
{}

/// Where rule E33 isn't broken, there is an order of evaluation.
pub fn order_exists(program: &Program)
    requires { (at : Place) → ¬ E33 program.now at }
    ensures { (order : List ℕ) × IsOrder program.now order }
{
    laws::sound(program);
    laws::sets(program);
    laws::reads(program);
}

/// Where rule E33 isn't broken, a state and inputs have exactly one environment.
pub fn one_environment(program: &Program)
    requires { (at : Place) → ¬ E33 program.now at }
    ensures { (st : State) (inputs : List ℕ) → IsState program.now st
        → ExactlyOne (IsEnvironment program.now st inputs) }
{
    order_exists(program);
    laws::exactly_one_environment(program);
}

/// Where rules E33 and E36 aren't broken, inputs have exactly one trace.
pub fn one_trace(program: &Program)
    requires chains { (at : Place) → ¬ E33 program.now at }
    requires forms { (at : Place) → ¬ E36 program.now at }
    ensures { (inputs : List (List ℕ)) → ExactlyOne (IsTrace program.now inputs) }
{
    order_exists(program);
    zero_is_a_state(program);
    laws::exactly_one_trace(program);
}
