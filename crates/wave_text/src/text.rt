//! The parts of a dump's text.

ghost use Rattle.std.specs.Prelude.{◌≡◌, ◌++◌, OnOk};
ghost use Rattle.wave_text.specs.Waves.{shown_text, tagged, value_text};

use itoa::Buffer;
use std::alloc::{AllocError, Global};

/// Adds a few letters and the number behind them.
#[tactic(auto, unfolding(crate::specs::Waves::tagged))]
pub(crate) fn push_tagged(text: &mut Vec<u8>, letters: &[u8], n: u64) -> Result<(), AllocError>
    ensures { OnOk result (text.new.items ≡ text.old.items ++ tagged letters.now n) }
{
    let mut buffer = Buffer::new();
    text.extend_from_slice(letters)?;
    text.extend_from_slice(buffer.format(n).as_bytes())
}

/// Adds a thing that is shown.
#[tactic(auto, unfolding(crate::specs::Waves::shown_text))]
pub(crate) fn push_shown(
    text: &mut Vec<u8>,
    kind: &[u8],
    width: u8,
    letter: &[u8],
    number: usize,
    name: &[u8],
) -> Result<(), AllocError>
    ensures { OnOk result (text.new.items
        ≡ text.old.items ++ shown_text kind.now width letter.now number name.now) }
{
    push_tagged(text, kind, width as u64)?;
    push_tagged(text, letter, number as u64)?;
    text.extend_from_slice(b" ")?;
    text.extend_from_slice(name)?;
    text.extend_from_slice(b" $end\n")
}

/// Adds the value of what has this sign.
#[tactic(auto, unfolding(crate::specs::Waves::value_text))]
pub(crate) fn push_value(
    alloc: Global,
    text: &mut Vec<u8>,
    letter: &[u8],
    number: usize,
    value: u64,
) -> Result<(), AllocError>
    ensures { OnOk result (text.new.items ≡ text.old.items ++ value_text letter.now number value) }
{
    let digits = format!(in alloc; "{value:b}")?;
    text.extend_from_slice(b"b")?;
    text.extend_from_slice(digits.as_bytes())?;
    push_tagged(text, letter, number as u64)?;
    text.extend_from_slice(b"\n")
}
