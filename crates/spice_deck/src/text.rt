//! The parts of a deck's text.

ghost use Rattle.std.specs.Prelude.{◌≡◌, ◌++◌, map, OnOk};
ghost use Rattle.spice_deck.specs.Deck.{digit, plain, tagged, thousandths};

use itoa::Buffer;
use std::alloc::AllocError;

fn digit(n: u128) -> u8
    ensures { result ≡ digit n }
{
    b'0' + (n % 10) as u8
}

/// Adds a number of thousandths.
#[tactic(auto, unfolding(crate::specs::Deck::thousandths))]
pub(crate) fn push_thousandths(text: &mut Vec<u8>, n: u128) -> Result<(), AllocError>
    ensures { OnOk result (text.new.items ≡ text.old.items ++ thousandths n) }
{
    let mut buffer = Buffer::new();
    text.extend_from_slice(buffer.format(n / 1000).as_bytes())?;
    text.extend_from_slice(b".")?;
    text.extend_from_slice(&[digit(n / 100), digit(n / 10), digit(n)])
}

/// Adds a few letters and the number behind them.
#[tactic(auto, unfolding(crate::specs::Deck::tagged))]
pub(crate) fn push_tagged(text: &mut Vec<u8>, letters: &[u8], n: u64) -> Result<(), AllocError>
    ensures { OnOk result (text.new.items ≡ text.old.items ++ tagged letters.now n) }
{
    let mut buffer = Buffer::new();
    text.extend_from_slice(letters)?;
    text.extend_from_slice(buffer.format(n).as_bytes())
}

fn plain(byte: u8) -> u8
    ensures { result ≡ plain byte }
{
    match byte {
        b'0'..=b'9' | b'A'..=b'Z' | b'a'..=b'z' => byte,
        _ => b'_',
    }
}

/// Adds a name that SPICE can read.
pub(crate) fn push_plain(text: &mut Vec<u8>, name: &[u8]) -> Result<(), AllocError>
    ensures { OnOk result (text.new.items ≡ text.old.items ++ map plain name.now) }
{
    for byte in name {
        text.push(plain(*byte))?;
    }
    Ok(())
}
