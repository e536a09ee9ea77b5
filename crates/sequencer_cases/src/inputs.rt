//! Values for pads: the inputs of a clock, given or random, and zeros.

ghost use Rattle.std.specs.Prelude.{◌≡◌, ◌<◌, ◌≤◌, length, IfOk, replicate};
ghost use Rattle.mp_program.specs.Pads.{pad_limit};
ghost use Rattle.sequencer_cases.specs.Inputs.{AreInputsOf};

use crate::dice::Dice;
use mp_base::{List, Pad};
use std::alloc::{AllocError, Global};

// What is left of a number in a word, or in a bit, whose width is 0.
fn limited(number: u64, width: u8) -> u64
    requires { width ≤ 64 }
    ensures { result < pad_limit width }
{
    match width {
        0 => number % 2,
        64 => number,
        _ => number % (1 << width),
    }
}

// A random number, which for `reset` is 1 in one of 32 clocks.
fn random_for(pad: &Pad, dice: &mut Dice) -> u64 {
    let number = dice.throw().wrapping_mul(0x1_0000_0001);
    if pad.name.bytes() == b"reset".as_slice() {
        u64::from(number % 32 == 0)
    } else {
        number
    }
}

// The number at a place in a list with blanks between them, or 0.
fn given_at(given: &str, place: usize) -> u64 {
    match given.trim().split(' ').nth(place) {
        Some(word) => word.parse().unwrap_or(0),
        None => 0,
    }
}

// The number at a place that is given, or a random one.
fn input_for(pad: &Pad, given: Option<&str>, place: usize, dice: &mut Dice) -> u64
    ensures { result < pad_limit pad.now.width }
{
    let number = match given {
        Some(given) => given_at(given, place),
        None => random_for(pad, dice),
    };
    limited(number, pad.width)
}

/// The inputs of a clock: numbers with blanks between them, or random ones where none are given.
pub(crate) fn inputs_of(
    alloc: Global,
    pads: &List<Pad>,
    given: Option<&str>,
    dice: &mut Dice,
) -> Result<List<u64>, AllocError>
    ensures { IfOk result (AreInputsOf pads.now) }
{
    let mut inputs = List::new(alloc);
    let entries = pads.as_slice();
    for k in 0..entries.len() {
        let input = input_for(&entries[k], given, k, dice);
        inputs.push(input)?;
    }
    Ok(inputs)
}

/// A 0 for each pad.
pub(crate) fn zeros(alloc: Global, pads: &List<Pad>) -> Result<List<u64>, AllocError>
    ensures { IfOk result (λ zeros. zeros ≡ replicate (length pads.now) 0) }
{
    Ok(List::from_vec(vec![in alloc; 0; pads.len()]?))
}
