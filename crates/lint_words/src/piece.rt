//! Lines of words, names and numbers.

use mp_base::push_number;
use std::alloc::AllocError;

/// A part of a line.
#[derive(Clone, Copy)]
pub enum Piece<'a> {
    Text(&'a str),
    /// A word of a file, told in backquotes.
    Quoted(&'a [u8]),
    /// Words of a file, as they stand.
    Bytes(&'a [u8]),
    Number(u64),
}

/// Adds the parts of a line to a text.
///
/// # Errors
/// Want of memory.
pub fn push_pieces(text: &mut Vec<u8>, pieces: &[Piece]) -> Result<(), AllocError> {
    for piece in pieces {
        match *piece {
            Piece::Text(words) => text.extend_from_slice(words.as_bytes())?,
            Piece::Quoted(word) => {
                text.push(b'`')?;
                text.extend_from_slice(word)?;
                text.push(b'`')?;
            }
            Piece::Bytes(words) => text.extend_from_slice(words)?,
            Piece::Number(number) => push_number(text, number)?,
        }
    }
    Ok(())
}
