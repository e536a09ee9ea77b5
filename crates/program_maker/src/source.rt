//! The source of a seed.

ghost use Rattle.std.specs.Prelude.{◌≡◌, ◌++◌, ◌<◌, [], OnOk, IfOk, slice_index_or};
ghost use Rattle.std.specs.List.{flat_map, range_with_len};
ghost use Rattle.program_maker.specs.Draws.{after};
ghost use Rattle.program_maker.specs.Texts.{registers, operators, operands, definition, setting};
ghost use Rattle.program_maker.specs.Texts.{setting_from, drawn_setting, source_text};

use crate::draws::Draws;
use std::alloc::{AllocError, Global};

const HEAD: &[u8] = b"(program made 16
(def 1 power)(def 2 ground)(def 3 phia)(def 4 phib)(def 5 phic)
(def reset signal input 6)
(def a port input (10 11 12 13 14 15 16 17 18 19 20 21 22 23 24 25))
(def b port input (26 27 28 29 30 31 32 33 34 35 36 37 38 39 40 41))
(def q port output (42 43 44 45 46 47 48 49 50 51 52 53 54 55 56 57))
";

const REGISTERS: [&[u8]; 12] = [
    b"r0", b"r1", b"r2", b"r3", b"r4", b"r5", b"r6", b"r7", b"r8", b"r9", b"r10", b"r11",
];

const OPERANDS: [&[u8]; 14] = [
    b"a", b"b", b"r0", b"r1", b"r2", b"r3", b"r4", b"r5", b"r6", b"r7", b"r8", b"r9", b"r10",
    b"r11",
];

const OPERATORS: [&[u8]; 5] = [b"+", b"-", b"word-and", b"word-or", b"word-xor"];

// Puts pieces of text at the end of a text.
fn push_pieces(text: &mut Vec<u8>, pieces: &[&[u8]]) -> Result<(), AllocError>
    ensures { OnOk result (text.new.items ≡ text.old.items ++ flat_map (λ piece. piece.now) pieces.now) }
{
    for piece in pieces {
        text.extend_from_slice(piece)?;
    }
    Ok(())
}

fn push_definition(text: &mut Vec<u8>, register: &[u8]) -> Result<(), AllocError>
    ensures { OnOk result (text.new.items ≡ text.old.items ++ definition register.now) }
{
    push_pieces(text, &[b"(def ", register, b" register)\n"])
}

fn push_setting(
    text: &mut Vec<u8>,
    register: &[u8],
    op: &[u8],
    x: &[u8],
    y: &[u8],
) -> Result<(), AllocError>
    ensures { OnOk result (text.new.items ≡ text.old.items ++ setting register.now op.now x.now y.now) }
{
    push_pieces(
        text,
        &[
            b"(always (setq ",
            register,
            b" (",
            op,
            b" ",
            x,
            b" ",
            y,
            b")))\n",
        ],
    )
}

// The name of a register.
fn register(index: usize) -> &'static [u8]
    requires { index < 12 }
    ensures { result.now ≡ slice_index_or registers index [] }
{
    REGISTERS[index]
}

fn operator(index: u64) -> &'static [u8]
    requires { index < 5 }
    ensures { result.now ≡ slice_index_or operators index [] }
{
    OPERATORS[index as usize]
}

fn operand(index: u64) -> &'static [u8]
    requires { index < 14 }
    ensures { result.now ≡ slice_index_or operands index [] }
{
    OPERANDS[index as usize]
}

// Draws what a register takes on.
#[tactic(auto, unfolding(crate::specs::Draws::after))]
fn draw_setting(draws: &mut Draws, text: &mut Vec<u8>, register: &[u8]) -> Result<(), AllocError>
    ensures state { draws.new.state ≡ after draws.old.state 3 }
    ensures ok { OnOk result (text.new.items ≡ text.old.items ++ setting_from draws.old.state register.now) }
{
    let op = operator(draws.below(5));
    let x = operand(draws.below(14));
    let y = operand(draws.below(14));
    push_setting(text, register, op, x, y)
}

fn push_definitions(text: &mut Vec<u8>) -> Result<(), AllocError>
    ensures { OnOk result (text.new.items ≡ text.old.items ++ flat_map definition registers) }
{
    for i in 0..12 {
        push_definition(text, register(i))?;
    }
    Ok(())
}

fn draw_settings(draws: &mut Draws, text: &mut Vec<u8>) -> Result<(), AllocError>
    ensures state { OnOk result (draws.new.state ≡ after draws.old.state 36) }
    ensures ok { OnOk result (text.new.items
        ≡ text.old.items ++ flat_map (drawn_setting draws.old.state) (range_with_len 0 12)) }
{
    for i in 0..12 {
        draw_setting(draws, text, register(i))?;
    }
    Ok(())
}

/// The text of a source, drawn.
pub(crate) fn source(alloc: Global, draws: &mut Draws) -> Result<Vec<u8>, AllocError>
    ensures state { OnOk result (draws.new.state ≡ after draws.old.state 36) }
    ensures text { IfOk result (λ text. text.items ≡ source_text draws.old.state) }
{
    let mut text = Vec::from_slice(alloc, HEAD)?;
    push_definitions(&mut text)?;
    draw_settings(draws, &mut text)?;
    text.extend_from_slice(b"(always (setq q (word-xor r0 r11))))\n")?;
    Ok(text)
}
