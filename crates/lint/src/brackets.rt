//! Mistakes of a text, rules E1 to E5, as many as there are.

use form_reader::NESTING_LIMIT;
use lint_words::{Findings, Note, Piece};
use mp_base::{Place, is_digit, is_token};
use std::alloc::{AllocError, Global};

/// Where one is in a text: whether in a comment, behind blanks alone in a line, or in a word.
#[derive(Clone, Copy)]
struct Cursor {
    place: Place,
    comment: bool,
    leads: bool,
    word: bool,
}

impl Cursor {
    fn start() -> Cursor {
        Cursor {
            place: Place {
                offset: 0,
                line: 1,
                column: 1,
            },
            comment: false,
            leads: true,
            word: false,
        }
    }

    fn behind_feed(self) -> Cursor {
        Cursor {
            place: Place {
                offset: self.place.offset.saturating_add(1),
                line: self.place.line.saturating_add(1),
                column: 1,
            },
            ..Cursor::start()
        }
    }

    fn behind(self, byte: u8) -> Cursor {
        if byte == b'\n' {
            return self.behind_feed();
        }
        Cursor {
            place: Place {
                offset: self.place.offset.saturating_add(1),
                line: self.place.line,
                column: self.place.column.saturating_add(1),
            },
            comment: self.comment || byte == b';',
            leads: self.leads && (byte == b' ' || byte == b'\t'),
            word: is_token(byte),
        }
    }
}

/// A list that is open: where, and whether it is the first of its line.
#[derive(Clone, Copy)]
struct Opened {
    place: Place,
    leads: bool,
}

/// The lists that are open; of these the first that seems to lack its `)`, since a list below it begins no further to
/// the right; and where the first list outside all others was closed.
#[derive(Drop)]
struct Lists {
    open: Vec<Opened>,
    suspect: Option<Place>,
    closed: Option<Place>,
}

// What is said of a character that stands for nothing.
fn stray_words(byte: u8) -> &'static str {
    match byte {
        b'#' | b'%' | b'!' => "no word has this character; a comment begins with `;`",
        b'"' | b'\'' | b'`' => "there are no texts and no quotes",
        b'[' | b']' | b'{' | b'}' => "lists are written with `(` and `)`",
        b',' | b'.' | b':' => "items are set apart by blanks",
        b'&' | b'|' | b'^' | b'~' => "operators are words, as `and`, `word-or`, `xor` and `not`",
        128..=255 => "a byte over 127 may stand in a comment alone",
        _ => "no word has this character",
    }
}

fn word_at(text: &[u8], place: Place) -> &[u8] {
    let rest = text.get(place.offset as usize..).unwrap_or(&[]);
    let count = rest.iter().take_while(|byte| is_token(**byte)).count();
    rest.get(..count).unwrap_or(rest)
}

// Whether a word is a number that is too great.
fn is_too_great(word: &[u8]) -> bool {
    let mut number = 0u64;
    for digit in word {
        if !is_digit(*digit) {
            return false;
        }
        let value = u64::from(digit.wrapping_sub(b'0'));
        match number.checked_mul(10).and_then(|n| n.checked_add(value)) {
            Some(more) => number = more,
            None => return word.iter().all(|byte| is_digit(*byte)),
        }
    }
    false
}

impl Lists {
    fn open(&mut self, findings: &mut Findings, at: Cursor) -> Result<(), AllocError> {
        if self.open.len() == NESTING_LIMIT as usize {
            findings.broken(5, at.place, Note::new(&[Piece::Text("the 65th list")]))?;
        }
        if at.leads && self.suspect.is_none() {
            let column = at.place.column;
            let inner = self.open.get(1..).unwrap_or(&[]);
            self.suspect = inner
                .iter()
                .find(|list| list.leads && list.place.column >= column)
                .map(|list| list.place);
        }
        self.open.push(Opened {
            place: at.place,
            leads: at.leads,
        })?;
        Ok(())
    }

    fn close(&mut self, findings: &mut Findings, place: Place) -> Result<(), AllocError> {
        if self.open.pop().is_some() {
            if self.open.is_empty() && self.closed.is_none() {
                self.closed = Some(place);
            }
            return Ok(());
        }
        let note = Note::new(&[Piece::Text("no list is open here")]);
        match self.closed {
            Some(closed) => findings.broken(
                3,
                place,
                note.beside(closed, "this one closed the first list of the file"),
            ),
            None => findings.broken(3, place, note),
        }
    }

    // A character that stands for nothing. Outside all lists the file is perhaps no source at all.
    fn tell_stray(
        &self,
        findings: &mut Findings,
        place: Place,
        byte: u8,
    ) -> Result<(), AllocError> {
        let words = [Piece::Text(stray_words(byte))];
        if self.open.is_empty() {
            return findings.broken(
                1,
                place,
                Note::new(&words).helped(&[Piece::Text(
                    "is this a source? It is one list, `(program NAME NUMBER ..)`",
                )]),
            );
        }
        findings.broken(1, place, Note::new(&words))
    }

    fn meet(
        &mut self,
        findings: &mut Findings,
        text: &[u8],
        at: Cursor,
        byte: u8,
    ) -> Result<(), AllocError> {
        match byte {
            b'(' => self.open(findings, at),
            b')' => self.close(findings, at.place),
            b';' | b' ' | b'\t' | b'\n' | b'\r' => Ok(()),
            _ if !is_token(byte) => self.tell_stray(findings, at.place, byte),
            _ if !at.word && is_too_great(word_at(text, at.place)) => {
                findings.broken(4, at.place, Note::new(&[Piece::Text("this number")]))
            }
            _ => Ok(()),
        }
    }

    fn end(&self, findings: &mut Findings) -> Result<(), AllocError> {
        let Some(outer) = self.open.first() else {
            return Ok(());
        };
        let inner = self.open.len().saturating_sub(1);
        let words = [
            Piece::Text("this is open at the end; open lists in it: "),
            Piece::Number(inner as u64),
        ];
        let note = Note::new(&words);
        let note = match (self.suspect, self.open.last()) {
            (Some(place), _) => note.beside(
                place,
                "a `)` seems to be missing here: what follows isn't further to the right",
            ),
            (None, Some(inner)) => note.beside(inner.place, "the innermost list that is open"),
            (None, None) => note,
        };
        findings.broken(2, outer.place, note)
    }
}

/// Adds where a text breaks rules E1 to E5.
///
/// # Errors
/// Want of memory.
pub(crate) fn find_brackets(
    alloc: Global,
    findings: &mut Findings,
    text: &[u8],
) -> Result<(), AllocError> {
    let mut lists = Lists {
        open: Vec::new(alloc),
        suspect: None,
        closed: None,
    };
    let mut at = Cursor::start();
    for byte in text {
        if !at.comment {
            lists.meet(findings, text, at, *byte)?;
        }
        at = at.behind(*byte);
    }
    lists.end(findings)
}
