//! The words that outputs show.

ghost use Rattle.std.specs.Prelude.{◌≡◌, ◌+◌, ◌<◌, ◌≤◌, ◌^◌, ℕ, length, map, if◌then◌else◌};
ghost use Rattle.switch_net.specs.Values.{value_at};
ghost use Rattle.stimulus.specs.Bits.{trit_at, low_trits};
ghost use Rattle.clock_run.specs.Words.{is_known, is_one};

use mp_base::{Trit, TritWord};

fn is_known(value: Trit) -> bool
    ensures { result ≡ is_known value }
{
    match value {
        Trit::X => false,
        _ => true,
    }
}

fn is_one(value: Trit) -> bool
    ensures { result ≡ is_one value }
{
    match value {
        Trit::One => true,
        _ => false,
    }
}

/// The word of one bit, if it is set.
fn flag(set: bool, k: usize) -> u64
    requires { k < 64 }
    ensures { result ≡ (if set then 2 ^ k else 0) }
{
    if set { 1u64 << k } else { 0 }
}

/// The word with one more bit.
fn with_bit(word: TritWord, k: usize, value: Trit) -> TritWord
    requires place { k < 64 }
    requires narrow { word.known < 2 ^ k }
    ensures narrow { result.known < 2 ^ (k + 1) }
    ensures below { (j : ℕ) → j < k → trit_at result j ≡ trit_at word j }
    ensures bit { trit_at result k ≡ value }
{
    let known = word.known | flag(is_known(value), k);
    let bits = word.bits | flag(is_one(value), k);
    TritWord { known, bits }
}

/// The value of a node: a number that is no node's has X.
fn value_at(values: &[Trit], node: u32) -> Trit
    ensures { result ≡ value_at values.now node }
{
    values.get(node as usize).copied().unwrap_or(Trit::X)
}

/// The word of the values of nodes, bit 0 first.
pub(crate) fn word_of(nodes: &[u32], values: &[Trit]) -> TritWord
    requires { length nodes.now ≤ 64 }
    ensures narrow { result.known < 2 ^ length nodes.now }
    ensures bits { low_trits (length nodes.now) result ≡ map (value_at values.now) nodes.now }
{
    let mut word = TritWord { known: 0, bits: 0 };
    for k in 0..nodes.len() {
        word = with_bit(word, k, value_at(values, nodes[k]));
    }
    word
}
