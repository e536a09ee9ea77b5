//! Pads, and what they are given and show.

ghost use Rattle.std.specs.Prelude.{◌≡◌, ◌-◌, ◌%◌, ◌^◌};
ghost use Rattle.std.specs.List.{list_any};
ghost use Rattle.stimulus.specs.Bits.{pad_trits};
ghost use Rattle.mp_base.specs.PadBits.{bit_count};
ghost use Rattle.stimulus.specs.Transcript.{number_of};
ghost use Rattle.board.specs.Loop.{idle_input, is_reset};

use mp_base::{Pad, TritWord};

fn bits_of(pad: &Pad) -> u8
    ensures { result ≡ bit_count pad.now.width }
{
    if pad.width == 0 { 1 } else { pad.width }
}

// All bits of a pad.
fn all_bits(pad: &Pad) -> u64
    ensures { result ≡ 2 ^ bit_count pad.now.width - 1 }
{
    u64::MAX >> (64 - bits_of(pad))
}

/// A value within the width of a pad.
pub(crate) fn within(pad: &Pad, value: u64) -> u64
    ensures { result ≡ value % 2 ^ bit_count pad.now.width }
{
    value & all_bits(pad)
}

/// The number that a pad shows, of which an unknown bit counts nothing.
pub(crate) fn number(pad: &Pad, word: TritWord) -> u64
    ensures { result ≡ number_of (pad_trits pad.now word) }
{
    word.known & word.bits & all_bits(pad)
}

fn is_reset(pad: &Pad) -> bool
    ensures { result ≡ is_reset pad.now }
{
    pad.name.bytes() == "reset".as_bytes()
}

/// Whether a pad has the name `reset`.
pub(crate) fn any_reset(pads: &[Pad]) -> bool
    ensures { result ≡ list_any is_reset pads.now }
{
    pads.iter().any(is_reset)
}

/// What a pad is given that no link drives.
pub(crate) fn idle_input(pad: &Pad, clock: u32) -> u64
    ensures { result ≡ idle_input clock pad.now }
{
    if clock == 0 && is_reset(pad) { 1 } else { 0 }
}
