//! The values of expressions.

ghost use Rattle.std.specs.Prelude.{◌≡◌, ◌<◌, ◌==◌, length, map};
ghost use Rattle.std.specs.List.{list_all, list_any};
ghost use Rattle.mp_base.specs.Apply.{apply, truth};
ghost use Rattle.mp_program.specs.Sound.{AllBetween};
ghost use Rattle.mp_program.specs.Values.{value_of};
ghost use Rattle.form_effects.specs.Linked.{AreLinks};

use crate::link::Links;
use mp_base::Op;
use mp_program::{ExprKind, Program, laws};

/// The value of an expression.
#[cycle(value)]
pub(crate) fn value(program: &Program, links: &Links, env: &[u64], expr: u32) -> u64
    requires linked { AreLinks program.now links.now }
    requires inside { expr < length program.now.exprs }
    ensures { result ≡ value_of program.now env.now expr }
{
    laws::sound(program);
    laws::values(program);
    let found = program.exprs.at(expr);
    match &found.kind {
        ExprKind::Number(n) => *n,
        ExprKind::Named(_) => {
            let i = links.exprs[expr as usize];
            if i < env.len() { env[i] } else { 0 }
        }
        ExprKind::True => 1,
        ExprKind::False => 0,
        ExprKind::Apply { op, index, args } => {
            applied(program, links, env, expr, *op, *index, args.as_slice())
        }
    }
}

/// The value of an operator on expressions that stand behind another.
#[cycle(value)]
fn applied(
    program: &Program,
    links: &Links,
    env: &[u64],
    before: u32,
    op: Op,
    index: u64,
    args: &[u32],
) -> u64
    requires linked { AreLinks program.now links.now }
    requires behind { AllBetween before (length program.now.exprs) args.now }
    ensures { result ≡ apply program.now.width op index (map (value_of program.now env.now) args.now) }
{
    laws::sound(program);
    match op {
        Op::And => truth_value(all_are(program, links, env, before, args, 1)),
        Op::Or => truth_value(one_is(program, links, env, before, args, 1)),
        Op::Nor => truth_value(all_are(program, links, env, before, args, 0)),
        Op::Nand => truth_value(one_is(program, links, env, before, args, 0)),
        _ => {
            let first = if args.len() > 0 {
                value(program, links, env, args[0])
            } else {
                0
            };
            let second = if args.len() > 1 {
                value(program, links, env, args[1])
            } else {
                0
            };
            op.apply(program.width, index, &[first, second])
        }
    }
}

/// Whether all of these expressions have this value.
#[cycle(value)]
fn all_are(
    program: &Program,
    links: &Links,
    env: &[u64],
    before: u32,
    args: &[u32],
    wanted: u64,
) -> bool
    requires linked { AreLinks program.now links.now }
    requires behind { AllBetween before (length program.now.exprs) args.now }
    ensures { result ≡ list_all (λ x. x == wanted) (map (value_of program.now env.now) args.now) }
{
    for arg in args {
        if value(program, links, env, *arg) != wanted {
            return false;
        }
    }
    true
}

/// Whether one of these expressions has this value.
#[cycle(value)]
fn one_is(
    program: &Program,
    links: &Links,
    env: &[u64],
    before: u32,
    args: &[u32],
    wanted: u64,
) -> bool
    requires linked { AreLinks program.now links.now }
    requires behind { AllBetween before (length program.now.exprs) args.now }
    ensures { result ≡ list_any (λ x. x == wanted) (map (value_of program.now env.now) args.now) }
{
    for arg in args {
        if value(program, links, env, *arg) == wanted {
            return true;
        }
    }
    false
}

fn truth_value(holds: bool) -> u64
    ensures { result ≡ truth holds }
{
    if holds { 1 } else { 0 }
}
