//! The lines of a transcript.

ghost use Rattle.std.specs.Prelude.{◌≡◌, ◌-◌, length};
ghost use Rattle.outside.specs.Outside.{Gains, HasCause};
ghost use Rattle.outside.specs.Piece.{TakesAll};
ghost use Rattle.stimulus.specs.Rules.{bound};
ghost use Rattle.stimulus.specs.Bits.{pad_trits, trits_of};
ghost use Rattle.stimulus.specs.Transcript.{bits_text, pad_text, line_text};

use crate::rules::bits_of;
use itoa::Buffer;
use mp_base::{Pad, Pads, TritOutputs, TritWord};
use outside::{Failed, Sink, write_all};

// All bits of a pad.
fn all_bits(pad: &Pad) -> u64
    ensures { result ≡ bound pad.now - 1 }
{
    u64::MAX >> (64 - bits_of(pad))
}

fn write_value<O: Sink>(out: &mut O, pad: &Pad, value: TritWord) -> Result<(), Failed>
    ensures taken { TakesAll Gains (O.held out.old) (O.held out.new) (bits_text (pad_trits pad.now value)) result }
    ensures cause { HasCause (O.faults out.old) (O.faults out.new) result }
{
    let all = all_bits(pad);
    if value.known & all == all {
        let mut buffer = Buffer::new();
        write_all(out, buffer.format(value.bits & all).as_bytes())
    } else {
        write_all(out, b"X")
    }
}

fn write_pad<O: Sink>(out: &mut O, pad: &Pad, value: TritWord) -> Result<(), Failed>
    ensures taken { TakesAll Gains (O.held out.old) (O.held out.new)
        (pad_text pad.now (pad_trits pad.now value)) result }
    ensures cause { HasCause (O.faults out.old) (O.faults out.new) result }
{
    write_all(out, b" ")?;
    write_all(out, pad.name.bytes())?;
    write_all(out, b"=")?;
    write_value(out, pad, value)
}

/// Writes the line of a clock: its number, and ` NAME=VALUE` for each output pad, where the value is `X`
/// exactly if one of its bits is unknown. What a word has past the width of its pad changes nothing.
pub fn line<O: Sink>(
    clock: u32,
    pads: &Pads,
    values: &TritOutputs,
    out: &mut O,
) -> Result<(), Failed>
    requires { length values.now ≡ length pads.now.outputs }
    ensures taken { TakesAll Gains (O.held out.old) (O.held out.new)
        (line_text clock pads.now.outputs (trits_of pads.now.outputs values.now)) result }
    ensures cause { HasCause (O.faults out.old) (O.faults out.new) result }
{
    let mut buffer = Buffer::new();
    write_all(out, buffer.format(clock).as_bytes())?;
    let outputs = pads.outputs.as_slice();
    let values = values.as_slice();
    for i in 0..outputs.len() {
        write_pad(out, &outputs[i], values[i])?;
    }
    write_all(out, b"\n")
}
