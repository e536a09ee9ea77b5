//! Files that a list sets.

use mp_base::NoMemory;
use outside_doubles::QuietDepot;
use std::alloc::{AllocError, Global};

/// A file of a name.
#[derive(Drop)]
pub struct File {
    pub name: String,
    pub text: Vec<u8>,
}

/// What the file of a name holds.
pub fn text_of<'a>(files: &'a [File], name: &str) -> Option<&'a [u8]> {
    for file in files {
        if file.name.as_str() == name {
            return Some(&file.text);
        }
    }
    None
}

// The place of the file of a name.
fn place_of(files: &[File], name: &str) -> Option<usize> {
    files.iter().position(|file| file.name.as_str() == name)
}

/// Sets a file, in place of one of that name.
///
/// # Errors
///
/// Want of memory, which leaves the files as they are.
pub fn set(
    alloc: Global,
    files: &mut Vec<File>,
    name: &str,
    text: Vec<u8>,
) -> Result<(), AllocError> {
    let name = String::from_str(alloc, name)?;
    let file = File { name, text };
    match place_of(files, file.name.as_str()) {
        Some(place) if place < files.len() => files[place] = file,
        _ => files.push(file)?,
    }
    Ok(())
}

/// What a list sets a file to.
#[derive(Clone, Copy)]
pub enum Content<'a> {
    /// A text in which `\n`, `\r` and `\hh`, a byte by two digits, stand for bytes that no line holds.
    Text(&'a str),
    /// Lines that slashes keep apart.
    Lines(&'a str),
    /// So many copies of such a text.
    Copies(u64, &'a str),
}

fn digit(letter: u8) -> u8 {
    match letter {
        b'0'..=b'9' => letter - b'0',
        b'a'..=b'f' => letter - 87,
        _ => 0,
    }
}

// The first byte that a text stands for, and the rest of the text.
fn byte_of(text: &[u8]) -> Option<(u8, &[u8])> {
    match text {
        [b'\\', b'n', after @ ..] => Some((b'\n', after)),
        [b'\\', b'r', after @ ..] => Some((b'\r', after)),
        [b'\\', high, low, after @ ..] => {
            let byte = digit(*high).wrapping_mul(16).wrapping_add(digit(*low));
            Some((byte, after))
        }
        [byte, after @ ..] => Some((*byte, after)),
        [] => None,
    }
}

// The bytes that a text stands for.
fn bytes_of(alloc: Global, text: &[u8]) -> Result<Vec<u8>, AllocError> {
    let mut bytes = Vec::new(alloc);
    let mut rest = text;
    for _ in 0..text.len() {
        if let Some((byte, after)) = byte_of(rest) {
            bytes.push(byte)?;
            rest = after;
        }
    }
    Ok(bytes)
}

fn copies_of(alloc: Global, count: u64, text: &str) -> Result<Vec<u8>, AllocError> {
    let bytes = bytes_of(alloc, text.as_bytes())?;
    let mut copies = Vec::new(alloc);
    for _ in 0..count {
        copies.extend_from_slice(&bytes)?;
    }
    Ok(copies)
}

fn lines_of(alloc: Global, text: &str) -> Result<Vec<u8>, AllocError> {
    let mut lines = Vec::new(alloc);
    for line in text.split(" / ") {
        lines.extend_from_slice(line.as_bytes())?;
        lines.push(b'\n')?;
    }
    Ok(lines)
}

impl Content<'_> {
    /// Its bytes: the text, the lines with a line feed behind each, or the copies.
    pub fn bytes(self, alloc: Global) -> Result<Vec<u8>, AllocError> {
        match self {
            Content::Text(text) => bytes_of(alloc, text.as_bytes()),
            Content::Lines(text) => lines_of(alloc, text),
            Content::Copies(count, text) => copies_of(alloc, count, text),
        }
    }
}

/// The files in memory, where no call fails; appends have so much room.
pub fn quiet_depot_of(alloc: Global, files: &[File], room: usize) -> Result<QuietDepot, NoMemory> {
    let mut depot = QuietDepot::new(alloc, room)?;
    for file in files {
        depot.put(file.name.as_str(), &file.text)?;
    }
    Ok(depot)
}
