//! The moves of processes.

ghost use Rattle.std.specs.Prelude.{◌≡◌, ◌<◌, length};
ghost use Rattle.std.specs.List.{flat_map};
ghost use Rattle.mp_program.specs.Sound.{AllBetween, BranchesFit};
ghost use Rattle.mp_program.specs.Values.{value_of};
ghost use Rattle.mp_program.specs.Effects.{effects_of, branch_effects};
ghost use Rattle.form_effects.specs.Linked.{AreLinks, process_at};
ghost use Rattle.form_effects.specs.Jumps.{jump_from};

use crate::link::Links;
use crate::value::value;
use mp_program::{Branch, FormKind, Program, laws};

/// A move of a process: to a place, into one with a place to return to, or back.
#[derive(Clone, Copy)]
pub enum Jump {
    To(usize),
    Into(usize),
    Back,
}

/// The first jump of an active form, in the process at an index.
#[cycle(jump)]
pub fn jump_of(
    program: &Program,
    links: &Links,
    env: &[u64],
    index: usize,
    form: u32,
) -> Option<Jump>
    requires linked { AreLinks program.now links.now }
    requires process { index < length program.now.processes }
    requires inside { form < length program.now.forms }
    ensures { result ≡ jump_from (process_at program.now index) (effects_of program.now env.now form) }
{
    laws::sound(program);
    laws::effects(program);
    let found = program.forms.at(form);
    match &found.kind {
        FormKind::Set {
            target: _,
            at: _,
            value: _,
        } => None,
        FormKind::Cond(branches) => jump_chosen(
            program,
            links,
            env,
            index,
            form,
            branches.as_slice(),
        ),
        FormKind::Par(forms) => jump_first(program, links, env, index, form, forms.as_slice()),
        FormKind::Go(_) => Some(Jump::To(links.landing(index, form))),
        FormKind::Call(_) => Some(Jump::Into(links.landing(index, form))),
        FormKind::Return => Some(Jump::Back),
    }
}

/// The same for the first branch whose guard is 1.
#[cycle(jump)]
fn jump_chosen(
    program: &Program,
    links: &Links,
    env: &[u64],
    index: usize,
    before: u32,
    branches: &[Branch],
) -> Option<Jump>
    requires linked { AreLinks program.now links.now }
    requires process { index < length program.now.processes }
    requires fit { BranchesFit (length program.now.exprs) before (length program.now.forms) branches.now }
    ensures { result ≡ jump_from (process_at program.now index)
        (branch_effects (value_of program.now env.now) branches.now (effects_of program.now env.now)) }
{
    for branch in branches {
        if value(program, links, env, branch.guard) == 1 {
            return jump_first(program, links, env, index, before, branch.body.as_slice());
        }
    }
    None
}

/// The same for forms that stand behind another.
#[cycle(jump)]
fn jump_first(
    program: &Program,
    links: &Links,
    env: &[u64],
    index: usize,
    before: u32,
    forms: &[u32],
) -> Option<Jump>
    requires linked { AreLinks program.now links.now }
    requires process { index < length program.now.processes }
    requires behind { AllBetween before (length program.now.forms) forms.now }
    ensures { result ≡ jump_from (process_at program.now index) (flat_map (effects_of program.now env.now) forms.now) }
{
    for form in forms {
        if let Some(jump) = jump_of(program, links, env, index, *form) {
            return Some(jump);
        }
    }
    None
}
