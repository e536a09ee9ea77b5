//! What a program as a whole may lack or have too much of: rules E33 to E45.

ghost use Rattle.name_meanings.specs.Table.{IsNameTable};
ghost use Rattle.written_frame.specs.Frame.{IsFrame};

use evaluation_guesses::{Graph, climb};
use lint_words::{Findings, Note, Piece, push_pieces};
use mp_base::{Place, WEIGHT_LIMIT};
use mp_limits::{
    crowded_name, deep_process, empty_process, far_process, long_process, missing_supply,
    without_reset,
};
use mp_names::{Meanings, NameTable, meanings_of, repeated_name};
use mp_order::{Evaluation, evaluation_order};
use mp_program::{Program, What};
use mp_rules::laws::own_names;
use mp_written as written;
use std::alloc::{AllocError, Global};
use written_counts::{many_exprs, weight_within};
use written_meanings::meanings_of as meant_of;

// The most that is weighed.
const SCALE: u32 = 1_000_000;

/// A definition on a closed chain, and how far up it lies.
#[derive(Clone, Copy)]
struct Link {
    weight: u32,
    def: usize,
}

// The chain through a definition, which ends with it: each reads the next.
fn chain_of(
    alloc: Global,
    program: &Program,
    meanings: &Meanings,
    target: u32,
) -> Result<Vec<Link>, AllocError> {
    let named = meanings.exprs.as_slice();
    let graph = Graph::new(alloc, program, named, meanings.targets.as_slice())?;
    let weights = climb(alloc, &graph, program, target)?;
    let mut links = Vec::new(alloc);
    for (def, weight) in weights.iter().enumerate() {
        if *weight > 0 {
            links.push(Link {
                weight: *weight,
                def,
            })?;
        }
    }
    links.sort_by_key(|link| link.weight)?;
    Ok(links)
}

// Rule E33: the chain is told whole.
fn tell_chain(
    alloc: Global,
    findings: &mut Findings,
    program: &Program,
    meanings: &Meanings,
    place: Place,
) -> Result<(), AllocError> {
    let forms = program.forms.as_slice();
    let form = forms
        .iter()
        .position(|form| form.place == place)
        .unwrap_or(0);
    let target = meanings.targets.as_slice().get(form).copied().unwrap_or(0);
    let links = chain_of(alloc, program, meanings, target)?;
    let defs = program.defs.as_slice();
    let mut words = Vec::new(alloc);
    if let Some(def) = defs.get(target as usize) {
        push_pieces(&mut words, &[Piece::Quoted(def.name.bytes())])?;
    }
    for link in &links {
        if let Some(def) = defs.get(link.def) {
            push_pieces(
                &mut words,
                &[Piece::Text(" reads "), Piece::Quoted(def.name.bytes())],
            )?;
        }
    }
    findings.broken(33, place, Note::new(&[Piece::Bytes(words.as_slice())]))
}

// Rules E33 and E44, of a program in which no name is defined twice.
fn find_chain_and_weight(
    alloc: Global,
    findings: &mut Findings,
    whole: &written::Program,
    program: &Program,
    names: &NameTable<'_>,
) -> Result<(), AllocError>
    requires frame { IsFrame whole.now program.now }
    requires names { IsNameTable program.now names.now }
{
    match repeated_name(program, names) {
        Some(_) => return Ok(()),
        None => own_names(program),
    }
    let meanings = meanings_of(alloc, program, names)?;
    if let Evaluation::Closed(place) = evaluation_order(alloc, program, &meanings)? {
        tell_chain(alloc, findings, program, &meanings, place)?;
    }
    let meant = meant_of(alloc, whole)?;
    match weight_within(alloc, whole, &meant, program, &meanings, SCALE)? {
        Some(weight) if weight > WEIGHT_LIMIT => {
            let words = [
                Piece::Text("this program weighs "),
                Piece::Number(u64::from(weight)),
            ];
            findings.broken(44, program.place, Note::new(&words))
        }
        Some(_) => Ok(()),
        None => findings.broken(
            44,
            program.place,
            Note::new(&[Piece::Text("this program weighs over a million")]),
        ),
    }
}

// The words for a supply that isn't defined.
fn missing(program: &Program, supply: What, words: &'static str) -> Piece<'static> {
    let defs = program.defs.as_slice();
    if defs.iter().any(|def| def.what == supply) {
        Piece::Text("")
    } else {
        Piece::Text(words)
    }
}

// Rule E35.
fn tell_supplies(
    findings: &mut Findings,
    program: &Program,
    place: Place,
) -> Result<(), AllocError> {
    let words = [
        Piece::Text("missing:"),
        missing(program, What::Power, " `(def PIN power)`"),
        missing(program, What::Ground, " `(def PIN ground)`"),
        missing(program, What::Phia, " `(def PIN phia)`"),
        missing(program, What::Phib, " `(def PIN phib)`"),
        missing(program, What::Phic, " `(def PIN phic)`"),
    ];
    findings.broken(35, place, Note::new(&words))
}

// Adds a rule that is broken somewhere, if it is.
fn add(
    findings: &mut Findings,
    number: u16,
    found: Option<Place>,
    words: &str,
) -> Result<(), AllocError> {
    match found {
        Some(place) => findings.broken(number, place, Note::new(&[Piece::Text(words)])),
        None => Ok(()),
    }
}

/// Adds where a program as a whole breaks rules E33 to E45, by its frame.
///
/// # Errors
/// Want of memory.
pub(crate) fn find_whole(
    alloc: Global,
    findings: &mut Findings,
    whole: &written::Program,
    program: &Program,
    names: &NameTable<'_>,
) -> Result<(), AllocError>
    requires frame { IsFrame whole.now program.now }
    requires names { IsNameTable program.now names.now }
{
    find_chain_and_weight(alloc, findings, whole, program, names)?;
    let keeps = "this keeps something from clock to clock";
    add(findings, 34, without_reset(program), keeps)?;
    if let Some(place) = missing_supply(program) {
        tell_supplies(findings, program, place)?;
    }
    add(
        findings,
        36,
        empty_process(program),
        "nothing in it is a form",
    )?;
    add(findings, 40, crowded_name(alloc, program)?, "the 257th")?;
    add(findings, 41, far_process(program), "the 17th")?;
    add(findings, 42, long_process(program), "the 257th")?;
    add(findings, 43, deep_process(program), "8 is the most")?;
    let meant = meant_of(alloc, whole)?;
    add(findings, 45, many_exprs(alloc, whole, &meant)?, "")
}
