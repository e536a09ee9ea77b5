//! The values of a program that breaks no rule stay within their sizes: laws. A call of one does nothing, and tells
//! the caller's proof what it ensures.
#![tactic(auto)]

ghost use Rattle.std.specs.Prelude.{◌≡◌, ◌<◌, ℕ, List, Contains};
ghost use Rattle.mp_base.specs.declared.refusal.Place.{Place};
ghost use Rattle.mp_program.specs.declared.program.Branch.{Branch};
ghost use Rattle.mp_program.specs.declared.program.Form.{Form};
ghost use Rattle.mp_program.specs.declared.program.FormKind.TheVariants.{Cond};
ghost use Rattle.mp_program.specs.Environment.{IsEnvironment};
ghost use Rattle.mp_program.specs.Pads.{input_pads, output_pads, FitsPads};
ghost use Rattle.mp_program.specs.Reads.{IsOrder};
ghost use Rattle.mp_program.specs.State.{State, IsState, zero_state};
ghost use Rattle.mp_program.specs.Step.{next_state, outputs_of};
ghost use Rattle.mp_program.specs.Values.{value_of};
ghost use Rattle.mp_base.specs.Entries.{IsAt};
ghost use Rattle.mp_rules.specs.Rules.{E20, E22, E23, E36};
ghost use Rattle.mp_fitting.specs.Fitting.{ValuesFit, StateFits};

use mp_program::Program;
use mp_program::laws::{driven_by_reads, effects, sound, values};
use mp_rules::laws::own_names;

/// The state of zeros is a state of a program in which each process has a form.
pub fn zero_is_a_state(program: &Program)
    requires { (at : Place) → ¬ E36 program.now at }
    ensures { IsState program.now (zero_state program.now) }
{}

/// The state of zeros fits.
pub fn zero_state_fits(program: &Program)
    ensures { StateFits program.now (zero_state program.now) }
{}

/// Where the state and the inputs fit, so do all values of the clock, since there is an order of evaluation.
pub fn environments_fit(program: &Program, order: &[u32])
    requires ordered { IsOrder program.now order.now }
    requires names { (at : Place) → ¬ E20 program.now at }
    requires sorts { (at : Place) → ¬ E22 program.now at }
    requires sizes { (at : Place) → ¬ E23 program.now at }
    ensures { (st : State) (inputs env : List ℕ) → IsState program.now st → StateFits program.now st
        → FitsPads (input_pads program.now) inputs → IsEnvironment program.now st inputs env
        → ValuesFit program.now env }
{
    sound(program);
    values(program);
    effects(program);
    own_names(program);
    driven_by_reads(program);
}

/// Where all values of the clock fit, the guards of branches are bits.
pub fn guards_fit(program: &Program)
    requires names { (at : Place) → ¬ E20 program.now at }
    requires sorts { (at : Place) → ¬ E22 program.now at }
    requires sizes { (at : Place) → ¬ E23 program.now at }
    ensures { (env : List ℕ) (f : ℕ) (form : Form) (branches : List Branch) (branch : Branch)
        → ValuesFit program.now env → IsAt program.now.forms f form → form.kind ≡ Cond branches
        → Contains branches branch → value_of program.now env branch.guard < 2 }
{
    sound(program);
    values(program);
    effects(program);
    own_names(program);
}

/// Where all values of the clock fit, so do the outputs.
pub fn outputs_fit(program: &Program)
    ensures { (env : List ℕ) → ValuesFit program.now env
        → FitsPads (output_pads program.now) (outputs_of program.now.defs env) }
{
    sound(program);
}

/// Where the state and all values of the clock fit, so does the next state.
pub fn next_states_fit(program: &Program)
    requires names { (at : Place) → ¬ E20 program.now at }
    requires sorts { (at : Place) → ¬ E22 program.now at }
    requires sizes { (at : Place) → ¬ E23 program.now at }
    ensures { (st : State) (inputs env : List ℕ) → StateFits program.now st → ValuesFit program.now env
        → StateFits program.now (next_state program.now st inputs env) }
{
    sound(program);
    values(program);
    effects(program);
    own_names(program);
}
