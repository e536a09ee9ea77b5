//! What fits stays so.

ghost use Rattle.std.specs.Prelude.{List, ℕ};
ghost use Rattle.mp_fitting.specs.Fitting.{StateFits};
ghost use Rattle.mp_program.specs.Environment.{IsEnvironment};
ghost use Rattle.mp_program.specs.Pads.{FitsPads, input_pads};
ghost use Rattle.mp_program.specs.Reads.{IsOrder};
ghost use Rattle.mp_program.specs.State.{IsState, State};
ghost use Rattle.mp_program.specs.Step.{next_state};
ghost use Rattle.mp_rules.specs.Breaking.{IsUnbroken};

use mp_fitting::{environments_fit, next_states_fit};
use mp_program::Program;

// A law: where the state and the inputs fit, so does the next state.
pub(crate) fn states_fit(program: &Program, order: &[u32])
    requires ordered { IsOrder program.now order.now }
    requires unbroken { IsUnbroken program.now }
    ensures { (st : State) (inputs env : List ℕ) → IsState program.now st → StateFits program.now st
        → FitsPads (input_pads program.now) inputs → IsEnvironment program.now st inputs env
        → StateFits program.now (next_state program.now st inputs env) }
{
    environments_fit(program, order);
    next_states_fit(program);
}
