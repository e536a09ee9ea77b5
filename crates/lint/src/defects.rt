//! What is told of a form that isn't what has to stand at its place: rule E10.

use form_reader::{Forms, Kind, Node};
use lint_words::{Findings, Note, Piece, foreign, is_like};
use mp_base::Place;
use mp_shapes::{Class, op_of};
use std::alloc::AllocError;

const ITEMS: [&str; 3] = ["def", "always", "process"];

const FORMS: [&str; 6] = ["setq", "cond", "par", "go", "call", "return"];

const OPERATORS: [&str; 20] = [
    "+", "-", "1+", "1-", "word-and", "word-or", "word-xor", "word-not", "<<", ">>", "and", "or",
    "nor", "nand", "xor", "not", "bit", "=0", "=", "<",
];

fn wanted(class: Class) -> &'static str {
    match class {
        Class::Whole => "a source is one `(program NAME NUMBER ..)`",
        Class::Item => "a `def`, `always` or `process` has to stand here",
        Class::Element => "a form or a label has to stand here",
        Class::Action => "a form has to stand here",
        Class::Branch => "a branch `(GUARD FORM ..)` has to stand here",
        Class::Value => "an expression has to stand here",
        Class::Word => "a name has to stand here",
        Class::Numeral => "a number has to stand here, in decimal and without a sign",
    }
}

// The shape of a list by its head.
fn shape_text(head: &[u8]) -> &'static str {
    match head {
        b"program" => "`(program NAME NUMBER ITEM ..)`",
        b"always" => "`(always FORM FORM ..)`",
        b"process" => "`(process NAME NUMBER ELEMENT ..)`",
        b"setq" => "`(setq NAME EXPRESSION)`",
        b"cond" => "`(cond (GUARD FORM ..) ..)`",
        b"par" => "`(par FORM FORM ..)`",
        b"go" => "`(go LABEL)`",
        b"call" => "`(call LABEL)`",
        b"return" => "`(return)`",
        b"bit" => "`(bit NUMBER WORD)`",
        b"1+" | b"1-" | b"word-not" | b"<<" | b">>" | b"not" | b"=0" => "one operand",
        b"and" | b"or" | b"nor" | b"nand" => "one or more operands",
        _ => "two operands",
    }
}

fn def_text(what: &[u8], way: &[u8]) -> &'static str {
    match (what, way) {
        (b"power", _) => "`(def PIN power)`",
        (b"ground", _) => "`(def PIN ground)`",
        (b"phia" | b"phib" | b"phic", _) => "`(def PIN phia)`, and so with `phib` and `phic`",
        (b"constant", _) => "`(def NAME constant NUMBER)`",
        (b"register", _) => "`(def NAME register)`",
        (b"flag", _) => "`(def NAME flag)`",
        (b"port", b"input") => "`(def NAME port input (PIN ..))`",
        (b"port", b"output") => "`(def NAME port output (PIN ..))`",
        (b"port", b"internal") => "`(def NAME port internal)`",
        (b"port", _) => "`(def NAME port input (PIN ..))`, `output (PIN ..)` or `internal`",
        (b"signal", b"input") => "`(def NAME signal input PIN)`",
        (b"signal", b"output") => "`(def NAME signal output PIN)`",
        (b"signal", b"internal") => "`(def NAME signal internal)`",
        (b"signal", _) => "`(def NAME signal input PIN)`, `output PIN` or `internal`",
        (b"function", _) => "`(def NAME function (NAME ..) EXPRESSION)`",
        _ => "`(def NAME register)`, or with `flag`, `constant`, `port`, `signal` or `function`",
    }
}

fn kind_at<'a>(forms: &'a Forms, items: &[u32], index: usize) -> Option<&'a Kind> {
    let node = items.get(index)?;
    let node = forms.nodes.as_slice().get(*node as usize)?;
    Some(&node.kind)
}

fn word_at<'a>(forms: &'a Forms, items: &[u32], index: usize) -> &'a [u8] {
    match kind_at(forms, items, index) {
        Some(Kind::Symbol(name)) => name.bytes(),
        _ => &[],
    }
}

fn is_among(words: &[&str], word: &[u8]) -> bool {
    words.iter().any(|other| other.as_bytes() == word)
}

/// Whether a word is an operator.
pub(crate) fn is_operator(word: &[u8]) -> bool {
    op_of(word).is_some() || word == b"bit".as_slice()
}

fn like<'a>(words: &[&'a str], word: &[u8]) -> Option<&'a str> {
    words
        .iter()
        .copied()
        .find(|other| is_like(other.as_bytes(), word))
}

/// The operator of which a word is like.
pub(crate) fn operator_like(word: &[u8]) -> Option<&'static str> {
    like(&OPERATORS, word)
}

// The word of a class of which another is like.
fn likely(class: Class, word: &[u8]) -> Option<&'static str> {
    match class {
        Class::Item => like(&ITEMS, word),
        _ => like(&FORMS, word),
    }
}

/// What is said of a form or an item of a program where a value is wanted, or nothing of another word.
pub(crate) fn without_value(head: &[u8]) -> &'static str {
    if is_among(&FORMS, head) {
        " is a form, which has no value and stands in an `always`, a process, a `par` or a branch"
    } else if is_among(&ITEMS, head) {
        " stands right in the program"
    } else {
        ""
    }
}

// A head that no list of the class has.
fn tell_unknown(
    findings: &mut Findings,
    class: Class,
    place: Place,
    head: &[u8],
) -> Result<(), AllocError> {
    let words = [
        Piece::Text(wanted(class)),
        Piece::Text(", and none begins with "),
        Piece::Quoted(head),
    ];
    let other = foreign(head);
    match likely(class, head) {
        Some(word) if other.is_empty() => findings.broken(
            10,
            place,
            Note::new(&words).helped(&[
                Piece::Text("did you mean "),
                Piece::Quoted(word.as_bytes()),
                Piece::Text("?"),
            ]),
        ),
        _ => findings.broken(10, place, Note::new(&words).helped(&[Piece::Text(other)])),
    }
}

// How to do what an operator with too many or too few operands may be meant to do.
fn count_advice(head: &[u8], count: usize) -> &'static str {
    match head {
        b"+" | b"word-and" | b"word-or" | b"word-xor" if count > 3 => {
            "nest it, as in `(+ (+ a b) c)`"
        }
        b"<<" | b">>" if count > 2 => "a word is moved by one place: nest it to move it further",
        b"-" if count == 2 => "write `(- 0 a)`",
        _ => "",
    }
}

// A head that is known, with too many or too few items behind it.
fn tell_count(
    findings: &mut Findings,
    place: Place,
    head: &[u8],
    count: usize,
) -> Result<(), AllocError> {
    let words = [
        Piece::Quoted(head),
        Piece::Text(" takes "),
        Piece::Text(shape_text(head)),
        Piece::Text("; items behind it here: "),
        Piece::Number(count.saturating_sub(1) as u64),
    ];
    let advice = count_advice(head, count);
    findings.broken(10, place, Note::new(&words).helped(&[Piece::Text(advice)]))
}

// A known head where a list of another class has to stand.
fn tell_misplaced(
    findings: &mut Findings,
    class: Class,
    place: Place,
    head: &[u8],
) -> Result<(), AllocError> {
    let what = if is_operator(head) {
        " gives a value, as in `(setq NAME (..))`"
    } else {
        without_value(head)
    };
    let words = [
        Piece::Text(wanted(class)),
        Piece::Text("; "),
        Piece::Quoted(head),
        Piece::Text(what),
    ];
    findings.broken(10, place, Note::new(&words))
}

fn tell_def(
    findings: &mut Findings,
    forms: &Forms,
    place: Place,
    items: &[u32],
) -> Result<(), AllocError> {
    let what = word_at(forms, items, 2);
    let words = [
        Piece::Text("this definition has to be "),
        Piece::Text(def_text(what, word_at(forms, items, 3))),
    ];
    let note = Note::new(&words);
    if what != b"constant".as_slice() {
        return findings.broken(10, place, note);
    }
    match kind_at(forms, items, 3) {
        Some(Kind::Symbol(name)) => findings.broken(
            10,
            place,
            note.helped(&[
                Piece::Quoted(name.bytes()),
                Piece::Text(" is no number: numbers are decimal, digits alone"),
            ]),
        ),
        Some(Kind::Group(_)) => findings.broken(
            10,
            place,
            note.helped(&[Piece::Text("a constant is a number: write the value of the list")]),
        ),
        _ => findings.broken(10, place, note),
    }
}

fn tell_list(
    findings: &mut Findings,
    forms: &Forms,
    class: Class,
    place: Place,
    items: &[u32],
) -> Result<(), AllocError> {
    let head = word_at(forms, items, 0);
    let count = items.len();
    let form = is_among(&FORMS, head);
    let operator = is_operator(head);
    let item = is_among(&ITEMS, head);
    match class {
        Class::Item if head == b"def".as_slice() => tell_def(findings, forms, place, items),
        Class::Whole if head == b"program".as_slice() => tell_count(findings, place, head, count),
        Class::Item if item => tell_count(findings, place, head, count),
        Class::Element | Class::Action if form => tell_count(findings, place, head, count),
        Class::Value if operator => tell_count(findings, place, head, count),
        Class::Word | Class::Numeral | Class::Whole => findings.broken(
            10,
            place,
            Note::new(&[
                Piece::Text(wanted(class)),
                Piece::Text(", and this is a list"),
            ]),
        ),
        _ if head.is_empty() => findings.broken(
            10,
            place,
            Note::new(&[
                Piece::Text(wanted(class)),
                Piece::Text(", and this list begins with no word"),
            ]),
        ),
        _ if form || operator || item => tell_misplaced(findings, class, place, head),
        Class::Value => findings.broken(
            10,
            place,
            Note::new(&[
                Piece::Quoted(head),
                Piece::Text(" is used without an operand"),
            ]),
        ),
        _ => tell_unknown(findings, class, place, head),
    }
}

/// Adds a node that isn't of the class that it stands for.
///
/// # Errors
/// Want of memory.
pub(crate) fn tell_defect(
    findings: &mut Findings,
    forms: &Forms,
    class: Class,
    node: &Node,
) -> Result<(), AllocError> {
    match &node.kind {
        Kind::Number(_) => findings.broken(
            10,
            node.place,
            Note::new(&[
                Piece::Text(wanted(class)),
                Piece::Text(", and this is a number"),
            ]),
        ),
        Kind::Symbol(name) => findings.broken(
            10,
            node.place,
            Note::new(&[
                Piece::Text(wanted(class)),
                Piece::Text(", and "),
                Piece::Quoted(name.bytes()),
                Piece::Text(" is a word"),
            ]),
        ),
        Kind::Group(items) => tell_list(findings, forms, class, node.place, items.as_slice()),
    }
}
