//! Laws of what is built of a program: a call of one does nothing, and tells the caller's proof what it ensures.

ghost use Rattle.mp_program.specs.Reads.{IsOrder};
ghost use Rattle.mp_rules.specs.Breaking.{IsUnbroken};
ghost use Rattle.process_plan.specs.Built.{IsBuilt, IsIdle};
ghost use Rattle.process_plan.specs.Lawful.{Lawful};
ghost use Rattle.process_plan.specs.Same.{IsSame};

use mp_fitting::{environments_fit, guards_fit, next_states_fit, zero_is_a_state, zero_state_fits};
use mp_program::Program;
use mp_program::laws::{
    effects, mentions, next_states, reads, sets, silence, sound, traces_exist, values,
};
use mp_rules::laws::{one_move, own_names};
use rtl_form::{Rtl, laws as transfers};

// The laws of programs, together.
fn lawful(program: &Program, order: &[u32])
    requires unbroken { IsUnbroken program.now }
    requires ordered { IsOrder program.now order.now }
    ensures { Lawful program.now order.now }
{
    sound(program);
    values(program);
    effects(program);
    mentions(program);
    sets(program);
    reads(program);
    silence(program);
    own_names(program);
    one_move(program);
    zero_is_a_state(program);
    zero_state_fits(program);
    next_states(program);
    environments_fit(program, order);
    guards_fit(program);
    next_states_fit(program);
    traces_exist(program, order);
}

/// Transfers that follow a plan of a program, at the cost of its bill, show what the program shows, and cost no more
/// than it weighs.
pub fn built_is_same(program: &Program, order: &[u32], rtl: &Rtl)
    requires unbroken { IsUnbroken program.now }
    requires ordered { IsOrder program.now order.now }
    requires built { IsBuilt program.now order.now rtl.now }
    ensures { IsSame program.now rtl.now }
{
    lawful(program, order);
    transfers::values(rtl);
    transfers::one_trace(rtl);
}

/// The same of cells alone, of a program without a `setq` and without a process.
pub fn idle_is_same(program: &Program, order: &[u32], rtl: &Rtl)
    requires unbroken { IsUnbroken program.now }
    requires ordered { IsOrder program.now order.now }
    requires idle { IsIdle program.now order.now rtl.now }
    ensures { IsSame program.now rtl.now }
{
    lawful(program, order);
    transfers::one_trace(rtl);
}
