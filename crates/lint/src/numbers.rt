//! Numbers, bits and pins: rules E23 to E26.

use crate::names::what_text;
use lint_words::{Findings, Note, Piece};
use mp_base::{Op, Place};
use mp_program::{Def, ExprKind, Program, Way, What};
use std::alloc::{AllocError, Global};
use std::collections::BTreeMap;

// The greatest word.
fn greatest(width: u8) -> u64 {
    match width {
        0..=63 => (1u64 << width) - 1,
        _ => u64::MAX,
    }
}

fn judge_number(
    findings: &mut Findings,
    width: u8,
    number: u64,
    place: Place,
) -> Result<(), AllocError> {
    let most = greatest(width);
    if number <= most {
        return Ok(());
    }
    let words = [
        Piece::Number(number),
        Piece::Text(" is over "),
        Piece::Number(most),
        Piece::Text(", the greatest word of "),
        Piece::Number(u64::from(width)),
        Piece::Text(if width == 1 { " bit" } else { " bits" }),
    ];
    findings.broken(23, place, Note::new(&words))
}

fn judge_bit(
    findings: &mut Findings,
    width: u8,
    index: u64,
    place: Place,
) -> Result<(), AllocError> {
    if index < u64::from(width) {
        return Ok(());
    }
    let words = [
        Piece::Text("this asks for bit "),
        Piece::Number(index),
        Piece::Text(", and the highest is bit "),
        Piece::Number(u64::from(width).saturating_sub(1)),
    ];
    findings.broken(24, place, Note::new(&words))
}

// Rules E23 and E24.
fn find_wide(findings: &mut Findings, program: &Program) -> Result<(), AllocError> {
    for def in program.defs.as_slice() {
        if let What::Constant(number) = def.what {
            judge_number(findings, program.width, number, def.place)?;
        }
    }
    for expr in program.exprs.as_slice() {
        match &expr.kind {
            ExprKind::Number(number) => {
                judge_number(findings, program.width, *number, expr.place)?
            }
            ExprKind::Apply {
                op: Op::Bit,
                index,
                ..
            } => judge_bit(findings, program.width, *index, expr.place)?,
            _ => {}
        }
    }
    Ok(())
}

// Rule E25.
fn find_repeated(
    alloc: Global,
    findings: &mut Findings,
    program: &Program,
) -> Result<(), AllocError> {
    let mut seen: BTreeMap<u64, Place> = BTreeMap::new(alloc);
    for def in program.defs.as_slice() {
        for pin in def.pins.as_slice() {
            match seen.get(&pin.number) {
                Some(first) => {
                    let words = [
                        Piece::Text("pin "),
                        Piece::Number(pin.number),
                        Piece::Text(" is taken"),
                    ];
                    let note = Note::new(&words).beside(*first, "by this");
                    findings.broken(25, pin.place, note)?;
                }
                None => {
                    seen.insert(pin.number, pin.place)?;
                }
            }
        }
    }
    Ok(())
}

// Rule E26 of a port.
fn judge_pins(findings: &mut Findings, width: u8, def: &Def) -> Result<(), AllocError> {
    let pins = def.pins.as_slice();
    let Some(first) = pins.first() else {
        return Ok(());
    };
    if pins.len() == width as usize {
        return Ok(());
    }
    let words = [
        Piece::Quoted(def.name.bytes()),
        Piece::Text(", "),
        Piece::Text(what_text(def.what)),
        Piece::Text(", needs pins: "),
        Piece::Number(u64::from(width)),
        Piece::Text("; there are: "),
        Piece::Number(pins.len() as u64),
    ];
    findings.broken(26, first.place, Note::new(&words))
}

/// Adds where a program breaks rules E23 to E26.
///
/// # Errors
/// Want of memory.
pub(crate) fn find_numbers(
    alloc: Global,
    findings: &mut Findings,
    program: &Program,
) -> Result<(), AllocError> {
    find_wide(findings, program)?;
    find_repeated(alloc, findings, program)?;
    for def in program.defs.as_slice() {
        if matches!(def.what, What::Port(Way::Input | Way::Output)) {
            judge_pins(findings, program.width, def)?;
        }
    }
    Ok(())
}
