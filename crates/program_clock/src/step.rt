//! What a clock shows, and what it leaves.

ghost use Rattle.std.specs.Prelude.{◌≡◌, ◌<◌, ◌++◌, length, filter};
ghost use Rattle.std.specs.List.{flat_map, AllByRecursion};
ghost use Rattle.mp_program.specs.declared.program.Def.{Def};
ghost use Rattle.mp_program.specs.Names.{is_output};
ghost use Rattle.mp_program.specs.Effects.{effects_of};
ghost use Rattle.mp_program.specs.Step.{next_stored, outputs_of, resets};
ghost use Rattle.form_effects.specs.Linked.{AreLinks, reset_pad};
ghost use Rattle.program_clock.specs.Settled.{IsBare};

use form_effects::{Links, written_to};
use mp_base::Outputs;
use mp_program::{Def, Program};

/// Gives each register and flag its value for the next clock.
pub(crate) fn advance(
    program: &Program,
    links: &Links,
    places: &[u32],
    env: &[u64],
    stored: &mut [u64],
)
    requires linked { AreLinks program.now links.now }
    requires placed { AllByRecursion (λ f. f < length program.now.forms) places.now }
    requires size { length stored.old ≡ length program.now.defs }
    requires bare { IsBare program.now.defs stored.old }
    ensures { stored.new ≡ next_stored
        (flat_map (effects_of program.now env.now) (program.now.always ++ places.now)) 0 program.now.defs stored.old }
{
    for k in 0..links.stored.len() {
        let target = links.stored[k];
        let written = written_to(program, links, places, env, target);
        stored[target] = written.unwrap_or(stored[target]);
    }
}

/// Whether the pads give 1 to `reset`.
pub(crate) fn resets(defs: &[Def], reset: Option<usize>, inputs: &[u64]) -> bool
    requires { reset ≡ reset_pad defs.now }
    ensures { result ≡ resets defs.now inputs.now }
{
    match reset {
        Some(pad) => pad < inputs.len() && inputs[pad] == 1,
        None => false,
    }
}

/// Gives each output pad its value.
pub(crate) fn show(program: &Program, links: &Links, env: &[u64], outputs: &mut Outputs)
    requires linked { AreLinks program.now links.now }
    requires size { length env.now ≡ length program.now.defs }
    requires pads { length outputs.old ≡ length (filter (λ (x : Def). is_output x.what) program.now.defs) }
    ensures { outputs.new ≡ outputs_of program.now.defs env.now }
{
    for pad in 0..links.outputs.len() {
        let target = links.outputs[pad];
        outputs.put(pad, env[target]);
    }
}
