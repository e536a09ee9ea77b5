//! The operators of word and bit expressions.

ghost use Rattle.std.specs.Prelude.{◌≡◌, ◌==◌, ◌%◌, ◌^◌, ◌<◌, ◌≤◌, slice_index};
ghost use Rattle.std.specs.List.{list_all, list_any};
ghost use Rattle.std.specs.Int.{bit_at};
ghost use Rattle.mp_base.specs.Apply.{apply, truth};

use crate::value::modulus;

/// An operator, in the order of the table of operators.
#[derive(Clone, Copy, PartialEq, Eq, Debug)]
pub enum Op {
    Add,
    Sub,
    Inc,
    Dec,
    WordAnd,
    WordOr,
    WordXor,
    WordNot,
    Left,
    Right,
    And,
    Or,
    Nor,
    Nand,
    Xor,
    Not,
    Bit,
    Zero,
    Equal,
    Less,
}

// A truth value as a number.
fn number(holds: bool) -> u64
    ensures { result ≡ truth holds }
{
    if holds { 1 } else { 0 }
}

// An operand, or 0 where there is none.
fn operand(args: &[u64], k: usize) -> u64
    ensures { result ≡ slice_index args.now k }
{
    if k < args.len() { args[k] } else { 0 }
}

// A number modulo 2^width.
fn reduced(value: u128, width: u8) -> u64
    requires { width ≤ 64 }
    ensures { result ≡ value % 2 ^ width }
{
    (value % modulus(width)) as u64
}

// Whether all operands are this one.
fn all_are(args: &[u64], value: u64) -> bool
    ensures { result ≡ list_all (λ x. x == value) args.now }
{
    args.iter().all(|x| *x == value)
}

// Whether an operand is this one.
fn one_is(args: &[u64], value: u64) -> bool
    ensures { result ≡ list_any (λ x. x == value) args.now }
{
    args.iter().any(|x| *x == value)
}

// The bit of weight 2^index, which is 0 past the top.
fn bit(word: u64, index: u64) -> u64
    ensures { result ≡ bit_at word index }
{
    if index < 64 { (word >> index) & 1 } else { 0 }
}

impl Op {
    /// The value on these operands at a word length of 1 to 64 bits. The index is that of `bit`.
    pub fn apply(self, width: u8, index: u64, args: &[u64]) -> u64
        requires some { 0 < width }
        requires narrow { width ≤ 64 }
        ensures { result ≡ apply width self index args.now }
    {
        let a = operand(args, 0);
        let b = operand(args, 1);
        match self {
            Op::Add => reduced(a as u128 + b as u128, width),
            Op::Sub => reduced(
                (a as u128 + modulus(width)).saturating_sub(b as u128),
                width,
            ),
            Op::Inc => reduced(a as u128 + 1, width),
            Op::Dec => reduced(a as u128 + modulus(width) - 1, width),
            Op::WordAnd => a & b,
            Op::WordOr => a | b,
            Op::WordXor => a ^ b,
            Op::WordNot => (modulus(width) - 1).saturating_sub(a as u128) as u64,
            Op::Left => reduced(2 * a as u128, width),
            Op::Right => a / 2,
            Op::And => number(all_are(args, 1)),
            Op::Or => number(one_is(args, 1)),
            Op::Nor => number(all_are(args, 0)),
            Op::Nand => number(one_is(args, 0)),
            Op::Xor => number(a < b) + number(b < a),
            Op::Not => 1u64.saturating_sub(a),
            Op::Bit => bit(a, index),
            Op::Zero => number(a == 0),
            Op::Equal => number(a == b),
            Op::Less => number(a < b),
        }
    }
}
