//! What forms write.

ghost use Rattle.std.specs.Prelude.{◌≡◌, ◌<◌, ◌++◌, length, slice_get, Some};
ghost use Rattle.std.specs.List.{flat_map, AllByRecursion};
ghost use Rattle.mp_base.specs.Merge.{merged};
ghost use Rattle.mp_program.specs.declared.program.Def.{Def};
ghost use Rattle.mp_program.specs.Sound.{AllBetween, BranchesFit};
ghost use Rattle.mp_program.specs.Values.{value_of};
ghost use Rattle.mp_program.specs.Effects.{effects_of, branch_effects, written};
ghost use Rattle.form_effects.specs.Linked.{AreLinks};
ghost use Rattle.form_effects.specs.Written.{written_at};

use crate::link::Links;
use crate::value::value;
use mp_base::join;
use mp_program::{Branch, FormKind, Program, laws};

/// The bitwise OR of what active forms of a list write to a definition, if they do.
pub(crate) fn written_by(
    program: &Program,
    links: &Links,
    env: &[u64],
    forms: &[u32],
    target: usize,
) -> Option<u64>
    requires linked { AreLinks program.now links.now }
    requires inside { AllByRecursion (λ f. f < length program.now.forms) forms.now }
    ensures { result ≡ merged (written_at program.now.defs target
        (flat_map (effects_of program.now env.now) forms.now)) }
{
    let mut all = None;
    for form in forms {
        let more = gather(program, links, env, *form, target);
        all = join(all, more);
    }
    all
}

/// The same for one form.
#[cycle(gather)]
fn gather(program: &Program, links: &Links, env: &[u64], form: u32, target: usize) -> Option<u64>
    requires linked { AreLinks program.now links.now }
    requires inside { form < length program.now.forms }
    ensures { result ≡ merged (written_at program.now.defs target (effects_of program.now env.now form)) }
{
    if links.is_quiet(target, form) {
        laws::silence(program);
        return None;
    }
    laws::sound(program);
    laws::effects(program);
    let found = program.forms.at(form);
    match &found.kind {
        FormKind::Set {
            target: _,
            at: _,
            value: expr,
        } => {
            if links.forms[form as usize] == target {
                Some(value(program, links, env, *expr))
            } else {
                None
            }
        }
        FormKind::Cond(branches) => gather_chosen(
            program,
            links,
            env,
            form,
            branches.as_slice(),
            target,
        ),
        FormKind::Par(forms) => gather_all(program, links, env, form, forms.as_slice(), target),
        FormKind::Go(_) => None,
        FormKind::Call(_) => None,
        FormKind::Return => None,
    }
}

/// The same for the first branch whose guard is 1.
#[cycle(gather)]
fn gather_chosen(
    program: &Program,
    links: &Links,
    env: &[u64],
    before: u32,
    branches: &[Branch],
    target: usize,
) -> Option<u64>
    requires linked { AreLinks program.now links.now }
    requires fit { BranchesFit (length program.now.exprs) before (length program.now.forms) branches.now }
    ensures { result ≡ merged (written_at program.now.defs target
        (branch_effects (value_of program.now env.now) branches.now (effects_of program.now env.now))) }
{
    for branch in branches {
        if value(program, links, env, branch.guard) == 1 {
            return gather_all(program, links, env, before, branch.body.as_slice(), target);
        }
    }
    None
}

/// The same for forms that stand behind another.
#[cycle(gather)]
fn gather_all(
    program: &Program,
    links: &Links,
    env: &[u64],
    before: u32,
    forms: &[u32],
    target: usize,
) -> Option<u64>
    requires linked { AreLinks program.now links.now }
    requires behind { AllBetween before (length program.now.forms) forms.now }
    ensures { result ≡ merged (written_at program.now.defs target
        (flat_map (effects_of program.now env.now) forms.now)) }
{
    let mut all = None;
    for form in forms {
        let more = gather(program, links, env, *form, target);
        all = join(all, more);
    }
    all
}

/// What active forms write to a definition, if they do, where processes are at these forms.
pub fn written_to(
    program: &Program,
    links: &Links,
    places: &[u32],
    env: &[u64],
    target: usize,
) -> Option<u64>
    requires linked { AreLinks program.now links.now }
    requires placed { AllByRecursion (λ f. f < length program.now.forms) places.now }
    requires inside { target < length program.now.defs }
    ensures { (x : Def) → slice_get program.now.defs target ≡ Some x
        → result ≡ merged (written x.name
        (flat_map (effects_of program.now env.now) (program.now.always ++ places.now))) }
{
    laws::sound(program);
    laws::silence(program);
    let first = links.defs[target];
    let setters = &links.setters.as_slice()[target];
    let always = written_by(program, links, env, setters.as_slice(), first);
    let processes = written_by(program, links, env, places, first);
    join(always, processes)
}
