//! The words that show values.

ghost use Rattle.std.specs.Prelude.{◌≡◌, ℕ, ◌<◌, ◌-◌, length, slice_index};
ghost use Rattle.stimulus.specs.Bits.{pad_trits, trits_of};
ghost use Rattle.mp_base.specs.PadBits.{pad_bits, value_bits};
ghost use Rattle.stimulus.specs.Rules.{bits_of, bound};
ghost use Rattle.stimulus.specs.Fitting.{bound_at};

use mp_base::{Pad, TritOutputs, TritWord};

fn bits_of(pad: &Pad) -> u8
    ensures { result ≡ bits_of pad.now }
{
    if pad.width == 0 { 1 } else { pad.width }
}

// All bits of a pad.
fn all_bits(pad: &Pad) -> u64
    ensures { result ≡ bound pad.now - 1 }
{
    u64::MAX >> (64 - bits_of(pad))
}

// The word of a pad that has a value, of which all bits are known.
fn known_word(pad: &Pad, value: u64) -> TritWord
    requires { value < bound pad.now }
    ensures { pad_trits pad.now result ≡ pad_bits pad.now value }
{
    TritWord {
        known: all_bits(pad),
        bits: value,
    }
}

/// Makes the words of outputs, of which all bits are known.
pub fn fill_words(pads: &[Pad], outputs: &[u64], words: &mut TritOutputs)
    requires outputs { length outputs.now ≡ length pads.now }
    requires words { length words.old ≡ length pads.now }
    requires fits { (k : ℕ) → k < length pads.now → slice_index outputs.now k < bound_at pads.now k }
    ensures len { length words.new ≡ length words.old }
    ensures bits { trits_of pads.now words.new ≡ value_bits pads.now outputs.now }
{
    for i in 0..pads.len() {
        words.put(i, known_word(&pads[i], outputs[i]));
    }
}
