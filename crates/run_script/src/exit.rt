//! Runs over the system's files and an output with little room.

use crate::step::{first_word, number};
use std::alloc::{AllocError, Global};
use std::env::{self, Args, Env, FillError};
use std::io;

/// A run over the system's files.
#[derive(Drop)]
pub struct Exit<'a> {
    words: Vec<&'a [u8]>,
    /// The room of the output.
    pub room: Vec<u8>,
    /// How many bytes of it are told.
    pub told: usize,
}

// Words that a run is given.
#[derive(Drop)]
struct Given<'a> {
    words: &'a [&'a [u8]],
}

impl<'a> Env for Given<'a> {
    fn arg(&self, i: usize, buf: &mut [u8]) -> Result<usize, FillError> {
        match self.words.get(i) {
            None => Err(FillError::NotPresent),
            Some(word) if word.len() > buf.len() => Err(FillError::TooLong),
            Some(word) => {
                buf[..word.len()].copy_from_slice(word);
                Ok(word.len())
            }
        }
    }

    fn var(&self, _name: &str, _buf: &mut [u8]) -> Result<usize, FillError> {
        Err(FillError::NotPresent)
    }

    fn var_at(&self, _i: usize, _buf: &mut [u8]) -> Result<usize, FillError> {
        Err(FillError::NotPresent)
    }
}

// Words that blanks keep apart. A question mark stands for a byte that no text has.
fn bytes_of_words(alloc: Global, text: &str) -> Result<Vec<&[u8]>, AllocError> {
    let mut words = Vec::new(alloc);
    for word in text.split_whitespace() {
        let word: &[u8] = if word == "?" {
            b"\xff"
        } else {
            word.as_bytes()
        };
        words.push(word)?;
    }
    Ok(words)
}

/// What a line says: the room of an output, at most 200 bytes, how many bytes of it are told, and words, the program's
/// name first.
pub fn exit_of(alloc: Global, line: &str) -> Result<Exit<'_>, AllocError> {
    let (size, rest) = first_word(line);
    let (told, text) = first_word(rest);
    Ok(Exit {
        words: bytes_of_words(alloc, text)?,
        room: vec![in alloc; 0u8; number(size).min(200) as usize]?,
        told: number(told) as usize,
    })
}

impl Exit<'_> {
    /// The words, as the system gives them.
    pub fn args(&self, alloc: Global) -> io::Result<Args> {
        let words = Given { words: &self.words };
        env::args(&(words, alloc))
    }
}
