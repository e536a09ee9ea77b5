//! A line of a file, with a mark under a place of it.

use mp_base::{Place, is_token, push_number};
use std::alloc::AllocError;

// The most bytes of a line that are shown, and how many stand before the place.
const SHOWN: usize = 140;

const BEFORE: usize = 70;

// The line around a place, without its line feed.
fn line_of(text: &[u8], place: Place) -> &[u8] {
    let before = u64::from(place.column).saturating_sub(1);
    let start = place.offset.saturating_sub(before) as usize;
    let rest = text.get(start..).unwrap_or(&[]);
    let end = rest
        .iter()
        .position(|byte| *byte == b'\n')
        .unwrap_or(rest.len());
    rest.get(..end).unwrap_or(rest)
}

// A byte as a screen shows it.
fn shown(byte: u8) -> u8 {
    match byte {
        b'\t' => b'\t',
        0..=31 | 127 => b'?',
        _ => byte,
    }
}

// A byte of what stands before a mark: as wide as a byte of the line.
fn blank_for(byte: u8) -> Option<u8> {
    match byte {
        b'\t' => Some(b'\t'),
        128..=191 => None,
        _ => Some(b' '),
    }
}

// The part of a line that is shown, and how many of its bytes stand before a place.
fn window(line: &[u8], before: usize) -> (&[u8], usize) {
    let from = if line.len() > SHOWN {
        before.saturating_sub(BEFORE)
    } else {
        0
    };
    let rest = line.get(from..).unwrap_or(&[]);
    (
        rest.get(..SHOWN).unwrap_or(rest),
        before.saturating_sub(from),
    )
}

// How many places a mark takes: those of the word at it.
fn mark_width(rest: &[u8]) -> usize {
    rest.iter()
        .take_while(|byte| is_token(**byte))
        .count()
        .max(1)
}

fn push_gutter(page: &mut Vec<u8>, line: u32) -> Result<(), AllocError> {
    let mut room = 10_000u32;
    for _ in 0..4 {
        if line < room {
            page.push(b' ')?;
        }
        room /= 10;
    }
    push_number(page, u64::from(line))?;
    page.extend_from_slice(b" | ")
}

fn push_shown(page: &mut Vec<u8>, line: &[u8]) -> Result<(), AllocError> {
    for byte in line {
        page.push(shown(*byte))?;
    }
    Ok(())
}

fn push_mark(page: &mut Vec<u8>, mark: u8, before: &[u8], width: usize) -> Result<(), AllocError> {
    for byte in before {
        if let Some(blank) = blank_for(*byte) {
            page.push(blank)?;
        }
    }
    for _ in 0..width {
        page.push(mark)?;
    }
    Ok(())
}

/// Adds the line of a place, and below it a mark and what is to be said there.
///
/// # Errors
/// Want of memory.
pub(crate) fn push_excerpt(
    page: &mut Vec<u8>,
    text: &[u8],
    place: Place,
    mark: u8,
    words: &[u8],
) -> Result<(), AllocError> {
    let line = line_of(text, place);
    let (line, before) = window(line, place.column.saturating_sub(1) as usize);
    let (front, rest) = line.split_at_checked(before).unwrap_or((line, &[]));
    push_gutter(page, place.line)?;
    push_shown(page, line)?;
    page.extend_from_slice(b"\n      | ")?;
    push_mark(page, mark, front, mark_width(rest))?;
    if !words.is_empty() {
        page.push(b' ')?;
        page.extend_from_slice(words)?;
    }
    page.extend_from_slice(b"\n")
}
