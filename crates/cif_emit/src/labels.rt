//! Labels.

ghost use Rattle.std.specs.Prelude.{◌≡◌, ◌++◌, IfOk, OnOk};
ghost use Rattle.std.specs.Fmt.{signed_decimal};
ghost use Rattle.cif_form.specs.Writing.{space};
ghost use Rattle.cif_emit.specs.Commands.{label_words, label_of};

use crate::boxes::name_of;
use cif_form::Command;
use fabric::ChipLabel;
use itoa::Buffer;
use mp_base::{Name, NoMemory};
use std::alloc::Global;

// A space and a number.
fn push_number(text: &mut Vec<u8>, number: i64) -> Result<(), NoMemory>
    ensures { OnOk result (text.new.items ≡ text.old.items ++ (space ++ signed_decimal number)) }
{
    let mut buffer = Buffer::new();
    text.extend_from_slice(b" ")?;
    text.extend_from_slice(buffer.format(number).as_bytes())?;
    Ok(())
}

// The text of the user command of a label, behind its digit.
fn words_of(alloc: Global, label: &ChipLabel) -> Result<Name, NoMemory>
    ensures { IfOk result (λ words. words ≡ label_words label.now) }
{
    let mut text = Vec::from_slice(alloc, b"4 ")?;
    text.extend_from_slice(label.name.bytes())?;
    push_number(&mut text, label.x / 2)?;
    push_number(&mut text, label.y / 2)?;
    text.extend_from_slice(b" ")?;
    text.extend_from_slice(name_of(label.layer))?;
    Ok(Name::from_vec(text))
}

/// The user command of a label.
pub(crate) fn label_command(alloc: Global, label: &ChipLabel) -> Result<Command, NoMemory>
    ensures { IfOk result (λ c. c ≡ label_of label.now) }
{
    Ok(Command::User {
        digit: 9,
        text: words_of(alloc, label)?,
    })
}
