//! What a line may say behind those before it.

ghost use Rattle.std.specs.Prelude.{◌≡◌, ◌≢◌, ◌<◌, ◌≤◌, ◌^◌, ◌↔◌, List};
ghost use Rattle.std.specs.Prelude.{IfOk, IsTrue, AllPairs};
ghost use Rattle.std.specs.List.{list_any};
ghost use Rattle.std.specs.Str.{bytes_eq};
ghost use Rattle.stimulus.specs.Rules.{has_pad, is_same, bits_of, bound, input_named};
ghost use Rattle.stimulus_lines.specs.declared.form.Assignment.{Assignment as Word};

use crate::given::Given;
use mp_base::{List, Pad};
use std::alloc::{AllocError, Global};
use std::collections::BTreeSet;
use stimulus_lines::Assignment;

/// Whether one of the pads has this name.
pub(crate) fn has_pad(name: &[u8], pads: &[Pad]) -> bool
    ensures { result ≡ has_pad name.now pads.now }
{
    pads.iter().any(|pad| pad.name.bytes() == name)
}

/// Whether one of these pads has the name and the width of this one.
pub(crate) fn has_same(pad: &Pad, pads: &[Pad]) -> bool
    ensures { result ≡ list_any (is_same pad.now) pads.now }
{
    let name = pad.name.bytes();
    pads.iter().any(|other| name == other.name.bytes() && pad.width == other.width)
}

/// The index of the first pad of this name.
pub(crate) fn input_named(inputs: &[Pad], name: &[u8]) -> Option<usize>
    ensures { result ≡ input_named inputs.now name.now }
{
    inputs.iter().position(|pad| pad.name.bytes() == name)
}

/// How many bits a pad has.
pub(crate) fn bits_of(pad: &Pad) -> u8
    ensures { result ≡ bits_of pad.now }
{
    if pad.width == 0 { 1 } else { pad.width }
}

/// Whether the value is one of the pad's.
pub(crate) fn fits(pad: &Pad, value: u64) -> bool
    ensures { IsTrue result ↔ value < bound pad.now }
{
    let bits = bits_of(pad);
    if bits >= 64 {
        return true;
    }
    value >> bits == 0
}

// Whether one of these words gives a value to this name.
fn has_name(name: &[u8], words: &[Assignment]) -> bool
    ensures { result ≡ list_any (λ (word : Word). bytes_eq name.now word.name) words.now }
{
    words.iter().any(|word| name == word.name.bytes())
}

// The most words whose names are compared each with each: up to there a set of names takes longer.
const FEW: usize = 8;

// Whether no name comes twice, for few words.
fn are_few_apart(words: &[Assignment]) -> bool
    ensures { IsTrue result ↔ AllPairs (λ (a b : Word). a.name ≢ b.name) words.now }
{
    for i in 0..words.len() {
        if has_name(words[i].name.bytes(), &words[..i]) {
            return false;
        }
    }
    true
}

/// Whether no name comes twice.
pub(crate) fn are_apart(alloc: Global, words: &[Assignment]) -> Result<bool, AllocError>
    ensures { IfOk result (λ apart. IsTrue apart ↔ AllPairs (λ (a b : Word). a.name ≢ b.name) words.now) }
{
    if words.len() <= FEW {
        return Ok(are_few_apart(words));
    }
    let mut names = BTreeSet::new(alloc);
    for word in words {
        if !names.insert(word.name.bytes())? {
            return Ok(false);
        }
    }
    Ok(true)
}
