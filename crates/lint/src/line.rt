//! The line that tells a broken rule.

ghost use Rattle.std.specs.Prelude.{◌≡◌, ◌++◌, IfOk};
ghost use Rattle.outcome.specs.Line.{line_of, letter_of, spot_text};

use mp_base::{Broken, Family, Spot, push_number};
use std::alloc::{AllocError, Global};

fn letter(family: Family) -> &'static str
    ensures { result.now ≡ letter_of family }
{
    match family {
        Family::E => "E",
        Family::S => "S",
        Family::C => "C",
        Family::F => "F",
        Family::N => "N",
        Family::B => "B",
        Family::L => "L",
        Family::P => "P",
    }
}

fn push_spot(text: &mut Vec<u8>, spot: &Spot) -> Result<(), AllocError>
    ensures { IfOk result (λ u. text.new.items ≡ text.old.items ++ spot_text spot.now) }
{
    match spot {
        Spot::At(place) => {
            text.extend_from_slice(b" at ")?;
            push_number(text, place.offset)?;
            text.extend_from_slice(b" line ")?;
            push_number(text, place.line as u64)?;
            text.extend_from_slice(b" column ")?;
            push_number(text, place.column as u64)
        }
        Spot::Offset(offset) => {
            text.extend_from_slice(b" at ")?;
            push_number(text, *offset)
        }
        Spot::Named(name) => {
            text.push(b' ')?;
            text.extend_from_slice(name.bytes())
        }
        Spot::Nowhere => Ok(()),
    }
}

/// The line that tells a broken rule, with its line feed.
pub(crate) fn line(alloc: Global, broken: &Broken) -> Result<Vec<u8>, AllocError>
    ensures { IfOk result (λ text. text.items ≡ line_of broken.now) }
{
    let mut text = Vec::from_slice(alloc, b"error ")?;
    text.extend_from_slice(letter(broken.rule.family).as_bytes())?;
    push_number(&mut text, broken.rule.number as u64)?;
    push_spot(&mut text, &broken.spot)?;
    text.push(b'\n')?;
    Ok(text)
}
