//! The state of a machine, and its steps.

ghost use Rattle.std.specs.Prelude.{◌≡◌, ◌<◌, length};
ghost use Rattle.std.specs.List.{AllByRecursion};
ghost use Rattle.mp_program.specs.State.{IsState, zero_state, places_taken};
ghost use Rattle.mp_program.specs.Step.{next_state};
ghost use Rattle.form_effects.specs.Linked.{AreLinks};
ghost use Rattle.program_clock.specs.Remembered.{state_of};
ghost use Rattle.program_clock.specs.Settled.{IsBare};

use crate::seat::{Memory, clear_seats};
use crate::seats::advance_seats;
use crate::step::{advance, resets};
use form_effects::Links;
use mp_program::{Program, laws};

/// Returns to the zero state.
pub(crate) fn clear(_program: &Program, memory: &mut Memory)
    requires { IsState _program.now (state_of memory.old) }
    ensures { state_of memory.new ≡ zero_state _program.now }
{
    memory.stored.fill(0);
    clear_seats(&mut memory.seats);
}

/// Goes on to the next state.
fn go_on(
    program: &Program,
    links: &Links,
    places: &[u32],
    inputs: &[u64],
    env: &[u64],
    memory: &mut Memory,
)
    requires linked { AreLinks program.now links.now }
    requires state { IsState program.now (state_of memory.old) }
    requires bare { IsBare program.now.defs memory.old.stored.items }
    requires placed { places.now ≡ places_taken program.now.processes (state_of memory.old).seats }
    requires inside { AllByRecursion (λ f. f < length program.now.forms) places.now }
    ensures { state_of memory.new ≡ next_state program.now (state_of memory.old) inputs.now env.now }
{
    if resets(program.defs.as_slice(), links.reset, inputs) {
        clear(program, memory);
    } else {
        advance(program, links, places, env, &mut memory.stored);
        advance_seats(program, links, places, env, &mut memory.seats);
    }
}

/// The same, which is a state of the program.
pub(crate) fn step(
    program: &Program,
    links: &Links,
    places: &[u32],
    inputs: &[u64],
    env: &[u64],
    memory: &mut Memory,
)
    requires linked { AreLinks program.now links.now }
    requires start { IsState program.now (zero_state program.now) }
    requires state { IsState program.now (state_of memory.old) }
    requires bare { IsBare program.now.defs memory.old.stored.items }
    requires placed { places.now ≡ places_taken program.now.processes (state_of memory.old).seats }
    requires inside { AllByRecursion (λ f. f < length program.now.forms) places.now }
    ensures next { state_of memory.new ≡ next_state program.now (state_of memory.old) inputs.now env.now }
    ensures state { IsState program.now (state_of memory.new) }
    ensures bare { IsBare program.now.defs memory.new.stored.items }
{
    laws::next_states(program);
    go_on(program, links, places, inputs, env, memory);
}
