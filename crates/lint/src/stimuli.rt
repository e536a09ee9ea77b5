//! Mistakes of a stimulus, rules S1 to S4, line by line.

ghost use Rattle.std.specs.Prelude.{◌<◌, ◌+◌, ◌^◌, length};

use lint_words::{Findings, Grade, Note, Piece, is_like, push_pieces};
use mp_base::{Family, Pad, Pads, Place, Rule, is_digit, is_supply, push_number};
use std::alloc::{AllocError, Global};
use stimulus_lines::{
    Assignment, Form, Piece as Word, is_skipped, line_at, line_end, read_form, take_words,
};

/// Where one is in a stimulus, and the names of its header.
#[derive(Drop)]
struct Reader<'a> {
    pads: &'a Pads,
    header: Vec<&'a [u8]>,
    clocked: bool,
    line: u32,
    start: usize,
}

impl<'a> Reader<'a> {
    // The place of a word of this line.
    fn place(&self, at: u32) -> Place {
        let column = u64::from(at).saturating_sub(self.start as u64);
        Place {
            offset: u64::from(at),
            line: self.line,
            column: u32::try_from(column).unwrap_or(0).saturating_add(1),
        }
    }

    fn broken(
        &self,
        findings: &mut Findings,
        number: u16,
        at: u32,
        note: Note,
    ) -> Result<(), AllocError> {
        let family = Family::S;
        findings.add(
            Grade::Mistake(Rule { family, number }),
            self.place(at),
            note,
        )
    }
}

fn bytes_of<'a>(words: &[Word<'a>], index: usize) -> &'a [u8] {
    match words.get(index) {
        Some(word) => word.bytes.bytes(),
        None => &[],
    }
}

fn at_of(words: &[Word], index: usize) -> u32 {
    words.get(index).map_or(0, |word| word.at)
}

fn is_number(word: &[u8]) -> bool {
    !word.is_empty() && word.iter().all(|byte| is_digit(*byte))
}

// Why a word of a clock line is no `NAME=N`.
fn assignment_fault(word: &[u8]) -> Option<&'static str> {
    match word.iter().rposition(|byte| *byte == b'=') {
        None => Some(" has no value: write `NAME=N`"),
        Some(0) => Some(" has no name before its `=`"),
        Some(equals) => {
            let value = word.get(equals.saturating_add(1)..).unwrap_or(&[]);
            if is_number(value) {
                None
            } else {
                Some(": a value is decimal, 1 to 20 digits, and below 2^64")
            }
        }
    }
}

// A line in none of the forms.
fn tell_formless(
    reader: &Reader<'_>,
    findings: &mut Findings,
    words: &[Word<'_>],
) -> Result<(), AllocError> {
    let first = bytes_of(words, 0);
    let at = at_of(words, 0);
    if first != b"clock".as_slice() {
        let pieces = if first == b"in".as_slice() || first == b"out".as_slice() {
            [
                Piece::Quoted(first),
                Piece::Text(" wants a name, and for a word a width of 1 to 64"),
            ]
        } else {
            [Piece::Quoted(first), Piece::Text(" begins no line")]
        };
        return reader.broken(findings, 1, at, Note::new(&pieces));
    }
    for word in words.iter().skip(1) {
        let bytes = word.bytes.bytes();
        if let Some(fault) = assignment_fault(bytes) {
            let pieces = [Piece::Quoted(bytes), Piece::Text(fault)];
            return reader.broken(findings, 1, at, Note::new(&pieces));
        }
    }
    let pieces = [Piece::Text("a name or a number in this line is in no form")];
    reader.broken(findings, 1, at, Note::new(&pieces))
}

fn pad_named<'a>(pads: &'a [Pad], name: &[u8]) -> Option<&'a Pad> {
    pads.iter().find(|pad| pad.name.bytes() == name)
}

// What may be meant by the name of a pad that isn't there so.
fn push_advice(
    help: &mut Vec<u8>,
    pads: &[Pad],
    others: &[Pad],
    name: &[u8],
) -> Result<(), AllocError> {
    if let Some(pad) = pad_named(pads, name) {
        if pad.width == 0 {
            return help.extend_from_slice(b"it is a signal, which is named without a width");
        }
        help.extend_from_slice(b"it is a word, of so many bits: ")?;
        return push_number(help, u64::from(pad.width));
    }
    if pad_named(others, name).is_some() {
        return help.extend_from_slice(b"inputs are given, outputs are shown: it is the other");
    }
    match pads.iter().find(|pad| is_like(pad.name.bytes(), name)) {
        Some(pad) => push_pieces(
            help,
            &[
                Piece::Text("did you mean "),
                Piece::Quoted(pad.name.bytes()),
                Piece::Text("?"),
            ],
        ),
        None => Ok(()),
    }
}

// A name that is no pad of this way.
fn tell_pad(
    alloc: Global,
    reader: &Reader<'_>,
    findings: &mut Findings,
    input: bool,
    name: &[u8],
    at: u32,
) -> Result<(), AllocError> {
    let inputs = reader.pads.inputs.as_slice();
    let outputs = reader.pads.outputs.as_slice();
    let mut help = Vec::new(alloc);
    if input {
        push_advice(&mut help, inputs, outputs, name)?;
    } else {
        push_advice(&mut help, outputs, inputs, name)?;
    }
    let way = if input {
        " is no input"
    } else {
        " is no output"
    };
    let pieces = [
        Piece::Quoted(name),
        Piece::Text(way),
        Piece::Text(" of the program"),
    ];
    reader.broken(
        findings,
        2,
        at,
        Note::new(&pieces).helped(&[Piece::Bytes(help.as_slice())]),
    )
}

// The greatest value of a pad.
fn greatest(pad: &Pad) -> u64 {
    match pad.width {
        0 => 1,
        1..=63 => (1u64 << pad.width) - 1,
        _ => u64::MAX,
    }
}

fn judge_assignment<'a>(
    alloc: Global,
    reader: &Reader<'a>,
    findings: &mut Findings,
    word: &Assignment<'a>,
) -> Result<(), AllocError> {
    let name = word.name.bytes();
    let Some(pad) = pad_named(reader.pads.inputs.as_slice(), name) else {
        return tell_pad(alloc, reader, findings, true, name, word.at);
    };
    let most = greatest(pad);
    if word.value <= most {
        return Ok(());
    }
    let pieces = [
        Piece::Number(word.value),
        Piece::Text(" is over "),
        Piece::Number(most),
        Piece::Text(", the greatest value of "),
        Piece::Quoted(name),
    ];
    reader.broken(findings, 3, word.at, Note::new(&pieces))
}

fn judge_clock<'a>(
    alloc: Global,
    reader: &Reader<'a>,
    findings: &mut Findings,
    words: &[Word<'a>],
    given: &[Assignment<'a>],
) -> Result<(), AllocError> {
    for (index, word) in given.iter().enumerate() {
        let name = word.name.bytes();
        let before = given.get(..index).unwrap_or(&[]);
        if before.iter().any(|other| other.name.bytes() == name) {
            let pieces = [
                Piece::Quoted(name),
                Piece::Text(" stands twice in this line"),
            ];
            return reader.broken(findings, 1, at_of(words, 0), Note::new(&pieces));
        }
    }
    for word in given {
        judge_assignment(alloc, reader, findings, word)?;
    }
    Ok(())
}

fn judge_header<'a>(
    alloc: Global,
    reader: &mut Reader<'a>,
    findings: &mut Findings,
    words: &[Word<'a>],
    pad: &Pad,
    input: bool,
) -> Result<(), AllocError> {
    let name = bytes_of(words, 1);
    let at = at_of(words, 0);
    if reader.clocked {
        let pieces = [Piece::Text("pads have to be named before the first clock")];
        return reader.broken(findings, 1, at, Note::new(&pieces));
    }
    if is_supply(name) {
        let pieces = [Piece::Quoted(name), Piece::Text(" is no pad of a program")];
        return reader.broken(findings, 1, at, Note::new(&pieces));
    }
    if reader.header.iter().any(|other| *other == name) {
        let pieces = [
            Piece::Quoted(name),
            Piece::Text(" stands in the header before"),
        ];
        return reader.broken(findings, 1, at, Note::new(&pieces));
    }
    reader.header.push(name)?;
    let pads = if input {
        reader.pads.inputs.as_slice()
    } else {
        reader.pads.outputs.as_slice()
    };
    match pad_named(pads, name) {
        Some(known) if known.width == pad.width => Ok(()),
        _ => tell_pad(alloc, reader, findings, input, name, at_of(words, 1)),
    }
}

fn judge_line<'a>(
    alloc: Global,
    reader: &mut Reader<'a>,
    findings: &mut Findings,
    words: &[Word<'a>],
) -> Result<(), AllocError> {
    if is_skipped(words) {
        return Ok(());
    }
    match read_form(alloc, words)? {
        None => tell_formless(reader, findings, words),
        Some(Form::Input(pad)) => judge_header(alloc, reader, findings, words, &pad, true),
        Some(Form::Output(pad)) => judge_header(alloc, reader, findings, words, &pad, false),
        Some(Form::Clock(given)) => {
            reader.clocked = true;
            judge_clock(alloc, reader, findings, words, given.as_slice())
        }
    }
}

/// Adds where a stimulus for these pads breaks rules S1 to S3.
///
/// # Errors
/// Want of memory.
pub(crate) fn find_stimulus<'a>(
    alloc: Global,
    findings: &mut Findings,
    text: &'a [u8],
    pads: &'a Pads,
) -> Result<(), AllocError>
    requires { length text.now + 1 < 2 ^ 32 }
{
    let mut reader = Reader {
        pads,
        header: Vec::new(alloc),
        clocked: false,
        line: 1,
        start: 0,
    };
    let mut words = Vec::new(alloc);
    let mut start = 0;
    'lines: loop {
        let end = line_end(text, start);
        take_words(&mut words, line_at(text, start, end), start as u32)?;
        reader.start = start;
        judge_line(alloc, &mut reader, findings, words.as_slice())?;
        if end == text.len() {
            return Ok(());
        }
        start = end + 1;
        reader.line = reader.line.saturating_add(1);
    }
}
