//! What is found in a file, and its text.

use crate::excerpt::push_excerpt;
use crate::piece::{Piece, push_pieces};
use crate::rules::{advice, meaning};
use mp_base::{Family, Place, Rule};
use std::alloc::{AllocError, Global};

/// A broken rule, or something that is allowed and hardly meant.
#[derive(Clone, Copy, PartialEq, Eq)]
pub enum Grade {
    Mistake(Rule),
    Warning(&'static str),
}

/// Another place of the file, and what is to be said there.
#[derive(Clone, Copy)]
pub struct Second {
    pub place: Place,
    pub words: &'static str,
}

/// What is told of a finding beside its rule: words at its place, another place, and help.
#[derive(Clone, Copy)]
pub struct Note<'a> {
    pub words: &'a [Piece<'a>],
    pub second: Option<Second>,
    pub help: &'a [Piece<'a>],
}

/// Something found in a file.
#[derive(Drop)]
pub struct Finding {
    pub grade: Grade,
    pub place: Place,
    words: Vec<u8>,
    second: Option<Second>,
    help: Vec<u8>,
}

impl<'a> Note<'a> {
    /// Words alone.
    pub fn new(words: &'a [Piece<'a>]) -> Note<'a> {
        Note {
            words,
            second: None,
            help: &[],
        }
    }

    /// The same with another place.
    pub fn beside(self, place: Place, words: &'static str) -> Note<'a> {
        let second = Some(Second { place, words });
        Note { second, ..self }
    }

    /// The same with help.
    pub fn helped(self, help: &'a [Piece<'a>]) -> Note<'a> {
        Note { help, ..self }
    }
}

// How the line of a further finding begins, before the words of its rule.
fn family_letter(family: Family) -> &'static str {
    match family {
        Family::E => "E",
        Family::S => "S",
        Family::L => "L",
        _ => "rule ",
    }
}

impl Finding {
    fn help(&self) -> &[u8] {
        match self.grade {
            Grade::Mistake(rule) if self.help.is_empty() => advice(rule).as_bytes(),
            _ => self.help.as_slice(),
        }
    }

    /// Adds the first line of a finding that isn't the first one.
    ///
    /// # Errors
    /// Want of memory.
    pub fn push_title(&self, page: &mut Vec<u8>) -> Result<(), AllocError> {
        match self.grade {
            Grade::Mistake(rule) => push_pieces(
                page,
                &[
                    Piece::Text("also "),
                    Piece::Text(family_letter(rule.family)),
                    Piece::Number(u64::from(rule.number)),
                    Piece::Text(": "),
                    Piece::Text(meaning(rule)),
                    Piece::Text("\n"),
                ],
            ),
            Grade::Warning(words) => push_pieces(
                page,
                &[
                    Piece::Text("warning: "),
                    Piece::Text(words),
                    Piece::Text("\n"),
                ],
            ),
        }
    }

    /// Adds where the finding is, in the text of the file of this name, and what is told of it.
    ///
    /// # Errors
    /// Want of memory.
    pub fn push_body(
        &self,
        page: &mut Vec<u8>,
        name: &[u8],
        text: &[u8],
    ) -> Result<(), AllocError> {
        page.extend_from_slice(b"   --> ")?;
        page.extend_from_slice(name)?;
        push_pieces(
            page,
            &[
                Piece::Text(":"),
                Piece::Number(u64::from(self.place.line)),
                Piece::Text(":"),
                Piece::Number(u64::from(self.place.column)),
                Piece::Text("\n"),
            ],
        )?;
        push_excerpt(page, text, self.place, b'^', self.words.as_slice())?;
        if let Some(second) = self.second {
            push_excerpt(page, text, second.place, b'-', second.words.as_bytes())?;
        }
        let help = self.help();
        if !help.is_empty() {
            page.extend_from_slice(b"      = help: ")?;
            page.extend_from_slice(help)?;
            page.extend_from_slice(b"\n")?;
        }
        Ok(())
    }
}

/// Findings of one file, as many as are told.
#[derive(Drop)]
pub struct Findings {
    alloc: Global,
    list: Vec<Finding>,
}

// How many findings are kept.
const ROOM: usize = 200;

impl Findings {
    pub fn new(alloc: Global) -> Findings {
        Findings {
            alloc,
            list: Vec::new(alloc),
        }
    }

    pub fn as_slice(&self) -> &[Finding] {
        self.list.as_slice()
    }

    pub fn is_empty(&self) -> bool {
        self.list.is_empty()
    }

    /// Adds a finding, where there is room for it.
    ///
    /// # Errors
    /// Want of memory.
    pub fn add(&mut self, grade: Grade, place: Place, note: Note) -> Result<(), AllocError> {
        if self.list.len() >= ROOM {
            return Ok(());
        }
        let mut words = Vec::new(self.alloc);
        push_pieces(&mut words, note.words)?;
        let mut help = Vec::new(self.alloc);
        push_pieces(&mut help, note.help)?;
        self.list.push(Finding {
            grade,
            place,
            words,
            second: note.second,
            help,
        })?;
        Ok(())
    }

    /// The same for a broken rule of sources, by its number.
    ///
    /// # Errors
    /// Want of memory.
    pub fn broken(&mut self, number: u16, place: Place, note: Note) -> Result<(), AllocError> {
        let family = Family::E;
        self.add(Grade::Mistake(Rule { family, number }), place, note)
    }

    /// Puts the findings in the order of the file.
    ///
    /// # Errors
    /// Want of memory.
    pub fn sort(&mut self) -> Result<(), AllocError> {
        self.list.sort_by_key(|finding| finding.place.offset)
    }
}
