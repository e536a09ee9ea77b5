//! The line of a verdict.

ghost use Rattle.std.specs.Prelude.{◌≡◌, ◌++◌, IfOk, OnOk};
ghost use Rattle.std.specs.Fmt.{signed_decimal};
ghost use Rattle.rules_command.specs.Lines.{verdict_line, breach_line};

use design_rules::Verdict;
use itoa::Buffer;
use mp_base::push_number;
use std::alloc::{AllocError, Global};

/// `clean`, or `breach RULE at X Y` in half-units, and a line feed.
///
/// # Errors
///
/// Want of memory.
pub(crate) fn verdict_line(alloc: Global, verdict: Verdict) -> Result<Vec<u8>, AllocError>
    ensures { IfOk result (λ text. text.items ≡ verdict_line verdict) }
{
    match verdict {
        Verdict::Clean => Vec::from_slice(alloc, b"clean\n"),
        Verdict::Breach { rule, x, y } => breach_line(alloc, rule, x, y),
    }
}

fn breach_line(alloc: Global, rule: u8, x: i64, y: i64) -> Result<Vec<u8>, AllocError>
    ensures { IfOk result (λ text. text.items ≡ breach_line rule x y) }
{
    let mut text = Vec::from_slice(alloc, b"breach ")?;
    push_number(&mut text, rule as u64)?;
    text.extend_from_slice(b" at ")?;
    push_signed(&mut text, x)?;
    text.extend_from_slice(b" ")?;
    push_signed(&mut text, y)?;
    text.push(b'\n')?;
    Ok(text)
}

fn push_signed(text: &mut Vec<u8>, number: i64) -> Result<(), AllocError>
    ensures { OnOk result (text.new.items ≡ text.old.items ++ signed_decimal number) }
{
    let mut buffer = Buffer::new();
    text.extend_from_slice(buffer.format(number).as_bytes())
}
