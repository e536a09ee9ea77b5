//! Numbers that are too large for where they stand: rules E23 and E24.

ghost use Rattle.std.specs.Prelude.{◌≡◌, ◌≤◌, ◌^◌, nat_le};
ghost use Rattle.mp_rules.specs.Breaking.{IsEarliest};
ghost use Rattle.mp_rules.specs.Rules.{E23, E24};
ghost use Rattle.mp_limits.specs.Finding.{is_past_word, is_wide_constant, is_wide_number};

use mp_base::{Op, Place};
use mp_program::{ExprKind, Program, What, laws};
use mp_rules::earlier;

// Whether a word of this width can't hold a value.
fn is_wide(width: u8, value: u64) -> bool
    requires { width ≤ 64 }
    ensures { result ≡ nat_le (2 ^ width) value }
{
    width < 64 && 1u64 << width <= value
}

fn is_wide_constant(width: u8, what: What) -> bool
    requires { width ≤ 64 }
    ensures { result ≡ is_wide_constant width what }
{
    match what {
        What::Constant(value) => is_wide(width, value),
        _ => false,
    }
}

fn is_wide_number(width: u8, kind: &ExprKind) -> bool
    requires { width ≤ 64 }
    ensures { result ≡ is_wide_number width kind.now }
{
    match kind {
        ExprKind::Number(value) => is_wide(width, *value),
        _ => false,
    }
}

fn is_past_word(width: u8, kind: &ExprKind) -> bool
    ensures { result ≡ is_past_word width kind.now }
{
    match kind {
        ExprKind::Apply {
            op: Op::Bit,
            index,
            ..
        } => u64::from(width) <= *index,
        _ => false,
    }
}

/// Rule E23: the earliest constant or number that a word can't hold.
pub fn wide_number(program: &Program) -> Option<Place>
    ensures { IsEarliest (E23 program.now) result }
{
    laws::sound(program);
    let width = program.width;
    let found = program
        .defs
        .as_slice()
        .iter()
        .filter_map(|def| is_wide_constant(width, def.what).then_some(def.place))
        .fold(None, |found, at| earlier(found, at));
    program
        .exprs
        .as_slice()
        .iter()
        .filter_map(|expr| is_wide_number(width, &expr.kind).then_some(expr.place))
        .fold(found, |found, at| earlier(found, at))
}

/// Rule E24: the earliest `bit` whose index is past the word.
pub fn bit_past_word(program: &Program) -> Option<Place>
    ensures { IsEarliest (E24 program.now) result }
{
    let width = program.width;
    program
        .exprs
        .as_slice()
        .iter()
        .filter_map(|expr| is_past_word(width, &expr.kind).then_some(expr.place))
        .fold(None, |found, at| earlier(found, at))
}
