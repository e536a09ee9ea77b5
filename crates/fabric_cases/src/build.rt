//! Lines of text to fabrics.

use crate::fits::{is_room, takes_line, takes_mark, takes_segment};
use crate::read::{Thing, number, thing_of, words_of};
use fabric::Fabric;
use mp_base::{List, NoMemory};
use std::alloc::Global;

// Adds what is asked for, if the fabric takes it.
fn add(fabric: &mut Fabric, asked: Option<Thing>) -> Result<bool, NoMemory> {
    match asked {
        Some(Thing::Segment(s)) if takes_segment(fabric, &s) => fabric.segment(s)?,
        Some(Thing::Line(l)) if takes_line(fabric, &l) => fabric.line(l)?,
        Some(Thing::Mark(m)) if takes_mark(fabric, &m) => fabric.mark(m)?,
        _ => return Ok(false),
    }
    Ok(true)
}

// Adds what a part of a line asks for, if the fabric takes it.
fn add_part(alloc: Global, fabric: &mut Fabric, part: &[u8]) -> Result<bool, NoMemory> {
    let asked = words_of(alloc, part)?;
    add(fabric, thing_of(asked.first, asked.numbers.as_slice()))
}

// Adds what the parts of a line behind its first ask for, if the fabric takes all of it.
fn fill(alloc: Global, fabric: &mut Fabric, text: &[u8]) -> Result<bool, NoMemory> {
    let mut parts = text.split(|byte| *byte == b';');
    parts.next();
    for part in parts {
        if !add_part(alloc, fabric, part)? {
            return Ok(false);
        }
    }
    Ok(true)
}

// The empty fabric that the first part of a line asks for, if there is such a fabric.
fn empty(alloc: Global, head: &[u8]) -> Result<Option<Fabric>, NoMemory> {
    let head = words_of(alloc, head)?;
    let columns = number(head.first);
    if !is_room(columns, head.numbers.as_slice()) {
        return Ok(None);
    }
    let fabric = Fabric::new(alloc, columns, List::from_vec(head.numbers))?;
    Ok(Some(fabric))
}

/// The fabric of a line, if it is one.
pub(crate) fn build(alloc: Global, text: &[u8]) -> Result<Option<Fabric>, NoMemory> {
    let Some(head) = text.split(|byte| *byte == b';').next() else {
        return Ok(None);
    };
    let Some(mut fabric) = empty(alloc, head)? else {
        return Ok(None);
    };
    Ok(if fill(alloc, &mut fabric, text)? {
        Some(fabric)
    } else {
        None
    })
}

/// A fabric with the same things, added all at once.
pub(crate) fn copy(alloc: Global, fabric: &Fabric) -> Result<Fabric, NoMemory> {
    fabric.conditions();
    let rows = fabric.rows().to_vec(alloc)?;
    let mut copy = Fabric::new(alloc, fabric.columns(), List::from_vec(rows))?;
    copy.add(fabric.segments(), fabric.lines(), fabric.marks())?;
    Ok(copy)
}
