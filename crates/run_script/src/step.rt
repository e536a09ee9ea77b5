//! The lines of a list.

use crate::failing::Side;
use crate::files::Content;
use std::alloc::{AllocError, Global};

/// What a line of a list says.
#[derive(Clone, Copy)]
pub enum Step<'a> {
    /// Sets a file.
    Set(&'a str, Content<'a>),
    /// Runs `net` over each front of a text.
    Fronts(&'a str),
    /// Runs words while each call of the files or of the output fails in turn, told in full.
    EachFails(Side, &'a str),
    /// The same, told in short.
    EachEnds(Side, &'a str),
    /// Runs words over files whose appends take a byte, while a call of them fails.
    Bytewise(u64, &'a str),
    /// Runs words over files and an output whose calls never fail.
    Quiet(&'a str),
    /// Runs words over files without an end.
    Endless(&'a str),
    /// The symbols of the masks in a file.
    Symbols(&'a str),
    /// The counts of the values of a circuit, whose masks and stimulus are in two files.
    Values(&'a str),
    /// Runs words.
    Run(&'a str),
}

// The first word of a text, and the rest.
pub(crate) fn first_word(text: &str) -> (&str, &str) {
    match text.split_once(' ') {
        Some(parts) => parts,
        None => (text, ""),
    }
}

// The number that digits spell, or 0.
pub(crate) fn number(digits: &str) -> u64 {
    digits.parse::<u64>().unwrap_or(0)
}

// A line that sets a file.
fn setting<'a>(first: &str, rest: &'a str) -> Option<Step<'a>> {
    let (name, text) = first_word(rest);
    if first == "file" {
        Some(Step::Set(name, Content::Text(text)))
    } else if first == "lines" {
        Some(Step::Set(name, Content::Lines(text)))
    } else if first == "copies" {
        let (count, piece) = first_word(text);
        Some(Step::Set(name, Content::Copies(number(count), piece)))
    } else {
        None
    }
}

// A line of runs of which each call fails in turn, or one.
fn failing<'a>(first: &str, rest: &'a str) -> Option<Step<'a>> {
    if first == "cut" {
        Some(Step::EachFails(Side::Output, rest))
    } else if first == "stop" {
        Some(Step::EachFails(Side::Files, rest))
    } else if first == "files-fail" {
        Some(Step::EachEnds(Side::Files, rest))
    } else if first == "output-fails" {
        Some(Step::EachEnds(Side::Output, rest))
    } else if first == "bytewise" {
        let (call, words) = first_word(rest);
        Some(Step::Bytewise(number(call), words))
    } else {
        None
    }
}

// A line of runs over other files, or of no run.
fn elsewhere<'a>(first: &str, rest: &'a str) -> Option<Step<'a>> {
    if first == "fronts" {
        Some(Step::Fronts(rest))
    } else if first == "quiet" {
        Some(Step::Quiet(rest))
    } else if first == "endless" {
        Some(Step::Endless(rest))
    } else if first == "symbols" {
        Some(Step::Symbols(rest))
    } else if first == "values" {
        Some(Step::Values(rest))
    } else {
        None
    }
}

/// What a line says, by its first word; a line with another first word is the words of a run.
pub fn step_of(line: &str) -> Step<'_> {
    let (first, rest) = first_word(line);
    setting(first, rest)
        .or(failing(first, rest))
        .or(elsewhere(first, rest))
        .unwrap_or(Step::Run(line))
}

// A word, in which `~` stands for a blank.
fn word_of(alloc: Global, text: &str) -> Result<String, AllocError> {
    let mut word = String::new(alloc);
    for letter in text.chars() {
        word.push(if letter == '~' { ' ' } else { letter })?;
    }
    Ok(word)
}

/// Words, each but the first behind one blank. A text without a byte has none.
pub fn words_of(alloc: Global, text: &str) -> Result<Vec<String>, AllocError> {
    let mut words = Vec::new(alloc);
    if text.is_empty() {
        return Ok(words);
    }
    for word in text.split(' ') {
        words.push(word_of(alloc, word)?)?;
    }
    Ok(words)
}
