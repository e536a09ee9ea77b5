//! The parts of a picture's text.

ghost use Rattle.std.specs.Prelude.{◌≡◌, ◌++◌, OnOk, neg_ℤ, pos};
ghost use Rattle.std.specs.List.{flat_map};
ghost use Rattle.mask_svg.specs.Pictures.{escaped, tagged};

use itoa::Buffer;
use std::alloc::AllocError;

/// Adds a few letters and the number behind them.
#[tactic(auto, unfolding(crate::specs::Pictures::tagged))]
pub(crate) fn push_tagged(text: &mut Vec<u8>, tag: &[u8], number: i64) -> Result<(), AllocError>
    ensures { OnOk result (text.new.items ≡ text.old.items ++ tagged tag.now number) }
{
    let mut buffer = Buffer::new();
    text.extend_from_slice(tag)?;
    text.extend_from_slice(buffer.format(number).as_bytes())
}

fn negated(number: i64) -> i128
    ensures { result ≡ neg_ℤ number }
{
    -(number as i128)
}

/// Adds a few letters and the number with its sign turned.
#[tactic(auto, unfolding(crate::specs::Pictures::tagged))]
pub(crate) fn push_negated(text: &mut Vec<u8>, tag: &[u8], number: i64) -> Result<(), AllocError>
    ensures { OnOk result (text.new.items ≡ text.old.items ++ tagged tag.now (neg_ℤ number)) }
{
    let mut buffer = Buffer::new();
    text.extend_from_slice(tag)?;
    text.extend_from_slice(buffer.format(negated(number)).as_bytes())
}

/// Adds a few letters and the number behind them, which has no sign.
#[tactic(auto, unfolding(crate::specs::Pictures::tagged))]
pub(crate) fn push_count(text: &mut Vec<u8>, tag: &[u8], count: u128) -> Result<(), AllocError>
    ensures { OnOk result (text.new.items ≡ text.old.items ++ tagged tag.now (pos count)) }
{
    let mut buffer = Buffer::new();
    text.extend_from_slice(tag)?;
    text.extend_from_slice(buffer.format(count).as_bytes())
}

// Adds a byte of a name.
fn push_escaped(text: &mut Vec<u8>, byte: u8) -> Result<(), AllocError>
    ensures { OnOk result (text.new.items ≡ text.old.items ++ escaped byte) }
{
    match byte {
        b'&' => text.extend_from_slice(b"&amp;"),
        b'<' => text.extend_from_slice(b"&lt;"),
        b'>' => text.extend_from_slice(b"&gt;"),
        b' '..=b'~' => text.extend_from_slice(&[byte]),
        _ => text.extend_from_slice(b"&#65533;"),
    }
}

/// Adds a name as XML has it.
pub(crate) fn push_name(text: &mut Vec<u8>, name: &[u8]) -> Result<(), AllocError>
    ensures { OnOk result (text.new.items ≡ text.old.items ++ flat_map escaped name.now) }
{
    for byte in name {
        push_escaped(text, *byte)?;
    }
    Ok(())
}
