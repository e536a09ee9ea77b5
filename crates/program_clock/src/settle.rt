//! The values of a clock.

ghost use Rattle.std.specs.Prelude.{◌≡◌, ◌<◌, length, slice_index, IfOk};
ghost use Rattle.std.specs.List.{AllByRecursion};
ghost use Rattle.mp_program.specs.Names.{is_input, is_stored};
ghost use Rattle.mp_program.specs.State.{IsState, places_taken};
ghost use Rattle.mp_program.specs.Environment.{what_value, IsEnvironment};
ghost use Rattle.mp_program.specs.Reads.{IsOrder};
ghost use Rattle.form_effects.specs.Linked.{AreLinks};
ghost use Rattle.program_clock.specs.Remembered.{state_of};
ghost use Rattle.program_clock.specs.Settled.{HasInputs, HasStored, LeavesOthers, IsSteady, IsGiven};

use crate::seat::Memory;
use form_effects::{Links, written_to};
use mp_program::{Def, Program, What, laws};
use std::alloc::{AllocError, Global};

/// The value of a definition that is stored, given and driven nothing.
fn fixed_value(what: What) -> u64
    ensures { result ≡ what_value what 0 0 0 }
{
    match what {
        What::Constant(n) => n,
        _ => 0,
    }
}

/// The values of the definitions before the first clock.
pub(crate) fn fixed_values(alloc: Global, defs: &[Def]) -> Result<Vec<u64>, AllocError>
    ensures size { IfOk result (λ env. length env.items ≡ length defs.now) }
    ensures steady { IfOk result (λ env. IsSteady defs.now env.items) }
{
    let mut env = Vec::new(alloc);
    for def in defs {
        env.push(fixed_value(def.what))?;
    }
    Ok(env)
}

/// The value of a pad, or 0 past the last.
fn value_at(values: &[u64], pad: usize) -> u64
    ensures { result ≡ slice_index values.now pad }
{
    match values.get(pad) {
        Some(value) => *value,
        None => 0,
    }
}

/// Gives the inputs the values of their pads.
fn give_inputs(program: &Program, links: &Links, inputs: &[u64], env: &mut [u64])
    requires linked { AreLinks program.now links.now }
    requires size { length env.old ≡ length program.now.defs }
    ensures size { length env.new ≡ length program.now.defs }
    ensures given { HasInputs program.now.defs inputs.now env.new }
    ensures others { LeavesOthers is_input program.now.defs env.old env.new }
{
    for pad in 0..links.inputs.len() {
        let target = links.inputs[pad];
        env[target] = value_at(inputs, pad);
    }
}

/// Gives the registers and flags what is stored for them.
fn give_stored(program: &Program, links: &Links, stored: &[u64], env: &mut [u64])
    requires linked { AreLinks program.now links.now }
    requires size { length env.old ≡ length program.now.defs }
    requires stored { length stored.now ≡ length program.now.defs }
    ensures size { length env.new ≡ length program.now.defs }
    ensures given { HasStored program.now.defs stored.now env.new }
    ensures others { LeavesOthers is_stored program.now.defs env.old env.new }
{
    for k in 0..links.stored.len() {
        let target = links.stored[k];
        env[target] = stored[target];
    }
}

/// Gives each definition the value that it has where nothing is driven to it, unless that never changes.
fn give(program: &Program, links: &Links, stored: &[u64], inputs: &[u64], env: &mut [u64])
    requires linked { AreLinks program.now links.now }
    requires size { length env.old ≡ length program.now.defs }
    requires stored { length stored.now ≡ length program.now.defs }
    requires steady { IsSteady program.now.defs env.old }
    ensures size { length env.new ≡ length program.now.defs }
    ensures given { IsGiven program.now.defs stored.now inputs.now env.new }
{
    give_inputs(program, links, inputs, env);
    give_stored(program, links, stored, env);
}

/// Finds the environment of a state and inputs.
pub(crate) fn settle(
    program: &Program,
    links: &Links,
    order: &[u32],
    memory: &Memory,
    places: &[u32],
    inputs: &[u64],
    env: &mut [u64],
)
    requires linked { AreLinks program.now links.now }
    requires ordered { IsOrder program.now order.now }
    requires state { IsState program.now (state_of memory.now) }
    requires placed { places.now ≡ places_taken program.now.processes (state_of memory.now).seats }
    requires placed_inside { AllByRecursion (λ f. f < length program.now.forms) places.now }
    requires size { length env.old ≡ length program.now.defs }
    requires steady { IsSteady program.now.defs env.old }
    ensures { IsEnvironment program.now (state_of memory.now) inputs.now env.new }
{
    laws::driven_by_reads(program);
    give(program, links, &memory.stored, inputs, env);
    for target in order {
        let found = written_to(program, links, places, env, *target as usize);
        env[*target as usize] = found.unwrap_or(0);
    }
}
