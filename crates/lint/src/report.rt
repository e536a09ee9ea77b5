//! The report of a source and a stimulus for it.

ghost use Rattle.std.specs.Prelude.{◌≡◌, ◌≤◌, ◌<◌, ◌+◌, ◌^◌, ◌++◌, ℕ, List, None, Some, Option, length, IfOk};
ghost use Rattle.mp_base.specs.declared.refusal.Broken.{Broken as BrokenRule};
ghost use Rattle.source_files.specs.declared.limits.TheConstants.{TEXT_LIMIT};
ghost use Rattle.mp_source.specs.Source.{IsSource};
ghost use Rattle.source_files.specs.Stimulus.{OfStimulus};
ghost use Rattle.lint.specs.Verdict.{OfHeld, OfTexts, Tells, fault_of};

use crate::brackets::find_brackets;
use crate::file::File;
use crate::jumps::find_jumps;
use crate::line::line;
use crate::names::find_names;
use crate::numbers::find_numbers;
use crate::shapes::find_shapes;
use crate::sorts::find_sorts;
use crate::stimuli::find_stimulus;
use crate::unused::find_warnings;
use crate::uses::find_uses;
use crate::verdict::{judge_source, judge_stimulus};
use crate::view::View;
use crate::whole::find_whole;
use form_reader::read_forms;
use lint_words::{Finding, Findings, Grade, Note, Piece, meaning, push_pieces};
use mp_base::{Broken, NoMemory, Pads, Place, Refusal, Spot};
use mp_checker::Checked;
use mp_names::NameTable;
use mp_syntax::parse;
use mp_written::Program;
use source_files::TEXT_LIMIT;
use std::alloc::{AllocError, Global};
use stimulus::Stimulus;
use written_frame::frame;

/// What is told of a source and a stimulus, and whether a rule is broken.
#[derive(Drop)]
pub struct Report {
    pub text: Vec<u8>,
    pub refused: bool,
}

// The most findings that are told behind the first.
const TOLD: usize = 20;

fn find_in_program(
    alloc: Global,
    findings: &mut Findings,
    program: &Program,
) -> Result<(), AllocError> {
    let frame = frame(alloc, program)?;
    let view = View::of(alloc, program)?;
    let names = NameTable::of(alloc, &frame)?;
    find_names(findings, &view, &frame, &names)?;
    find_uses(alloc, findings, &view)?;
    find_sorts(alloc, findings, &view)?;
    find_numbers(alloc, findings, &frame)?;
    find_jumps(alloc, findings, &frame)?;
    find_whole(alloc, findings, program, &frame, &names)
}

// Mistakes of a source: of its text; or else of its forms; or else of its program.
fn find_in_source(alloc: Global, findings: &mut Findings, text: &[u8]) -> Result<(), NoMemory>
    requires { length text.now ≤ TEXT_LIMIT }
{
    let forms = match read_forms(alloc, text) {
        Ok(forms) => forms,
        Err(_) => return Ok(find_brackets(alloc, findings, text)?),
    };
    match parse(alloc, &forms) {
        Ok(program) => Ok(find_in_program(alloc, findings, &program)?),
        Err(_) => Ok(find_shapes(alloc, findings, &forms)?),
    }
}

// Whether this is the first mistake.
fn is_first(finding: &Finding, broken: &Broken) -> bool {
    match (finding.grade, &broken.spot) {
        (Grade::Mistake(rule), Spot::At(place)) => {
            rule == broken.rule && finding.place.offset == place.offset
        }
        _ => false,
    }
}

// Sees to it that the first mistake is among the findings, which are then put in order.
fn keep_first(findings: &mut Findings, broken: &Broken) -> Result<(), AllocError> {
    let known = findings
        .as_slice()
        .iter()
        .any(|finding| is_first(finding, broken));
    if let Spot::At(place) = broken.spot {
        if !known {
            findings.add(Grade::Mistake(broken.rule), place, Note::new(&[]))?;
        }
    }
    findings.sort()
}

// Adds findings that aren't the first mistake, and how many more there are.
fn push_more(
    page: &mut Vec<u8>,
    file: File,
    findings: &Findings,
    first: Option<&Broken>,
) -> Result<(), AllocError> {
    let mut told = 0usize;
    for finding in findings.as_slice() {
        if first.is_some_and(|broken| is_first(finding, broken)) {
            continue;
        }
        told = told.saturating_add(1);
        if told <= TOLD {
            page.push(b'\n')?;
            finding.push_title(page)?;
            finding.push_body(page, file.name, file.bytes)?;
        }
    }
    if told > TOLD {
        let more = told.saturating_sub(TOLD) as u64;
        push_pieces(
            page,
            &[
                Piece::Text("\nand more of these: "),
                Piece::Number(more),
                Piece::Text("\n"),
            ],
        )?;
    }
    Ok(())
}

// What stands behind the line of the first mistake.
fn details(
    alloc: Global,
    file: File,
    broken: &Broken,
    findings: &mut Findings,
) -> Result<Vec<u8>, AllocError> {
    let mut page = Vec::new(alloc);
    push_pieces(
        &mut page,
        &[Piece::Text(meaning(broken.rule)), Piece::Text("\n")],
    )?;
    keep_first(findings, broken)?;
    let first = findings
        .as_slice()
        .iter()
        .find(|finding| is_first(finding, broken));
    if let Some(first) = first {
        first.push_body(&mut page, file.name, file.bytes)?;
    }
    push_more(&mut page, file, findings, Some(broken))?;
    Ok(page)
}

// The report of a first mistake, and of others.
fn refusal(
    alloc: Global,
    file: File,
    broken: &Broken,
    findings: &mut Findings,
) -> Result<Report, NoMemory>
    ensures { IfOk result (λ report. Tells (Some broken.now) report.refused report.text.items) }
{
    let mut text = line(alloc, broken)?;
    let rest = details(alloc, file, broken, findings)?;
    text.extend_from_slice(rest.as_slice())?;
    Ok(Report {
        text,
        refused: true,
    })
}

// The report of texts that break no rule.
fn clean(alloc: Global, warnings: Vec<u8>) -> Result<Report, NoMemory>
    ensures { IfOk result (λ report. Tells None report.refused report.text.items) }
{
    let mut text = Vec::new(alloc);
    text.extend_from_slice(b"no mistakes\n")?;
    text.extend_from_slice(warnings.as_slice())?;
    Ok(Report {
        text,
        refused: false,
    })
}

// The warnings of a source that breaks no rule.
fn warnings_of(alloc: Global, file: File, checked: &Checked) -> Result<Vec<u8>, AllocError> {
    let mut findings = Findings::new(alloc);
    find_warnings(alloc, &mut findings, checked.program())?;
    findings.sort()?;
    let mut page = Vec::new(alloc);
    push_more(&mut page, file, &findings, None)?;
    Ok(page)
}

// Whether a clock of a stimulus sets `reset`.
fn is_reset(stimulus: &Stimulus) -> bool {
    let inputs = stimulus.pads.inputs.as_slice();
    let reset = inputs
        .iter()
        .position(|pad| pad.name.bytes() == b"reset".as_slice())
        .unwrap_or(inputs.len());
    stimulus.clocks.as_slice().iter().any(|clock| {
        clock
            .as_slice()
            .iter()
            .any(|given| given.input as usize == reset && given.value == 1)
    })
}

const FRONT: Place = Place {
    offset: 0,
    line: 1,
    column: 1,
};

// The warnings of a stimulus that breaks no rule, behind those of its source.
fn warn_stimulus(
    alloc: Global,
    page: &mut Vec<u8>,
    file: File,
    checked: &Checked,
    stimulus: &Stimulus,
) -> Result<(), AllocError> {
    if !checked.stores() || is_reset(stimulus) {
        return Ok(());
    }
    let mut findings = Findings::new(alloc);
    findings.add(
        Grade::Warning("no clock of this stimulus has `reset=1`"),
        FRONT,
        Note::new(&[Piece::Text("the program keeps state, which isn't known before a reset")]),
    )?;
    push_more(page, file, &findings, None)
}

// The report of a source that breaks no rule.
fn lint_source(alloc: Global, file: File, checked: &Checked) -> Result<Report, NoMemory>
    ensures { IfOk result (λ report. Tells None report.refused report.text.items) }
{
    let warnings = warnings_of(alloc, file, checked)?;
    clean(alloc, warnings)
}

// The report of a source that breaks a rule.
fn refused_source(alloc: Global, file: File, broken: &Broken) -> Result<Report, NoMemory>
    ensures { IfOk result (λ report. Tells (Some broken.now) report.refused report.text.items) }
{
    let mut findings = Findings::new(alloc);
    if file.bytes.len() <= TEXT_LIMIT {
        find_in_source(alloc, &mut findings, file.bytes)?;
    }
    refusal(alloc, file, broken, &mut findings)
}

// The report of a stimulus that breaks a rule.
fn refused_stimulus(
    alloc: Global,
    file: File,
    pads: &Pads,
    broken: &Broken,
) -> Result<Report, NoMemory>
    ensures { IfOk result (λ report. Tells (Some broken.now) report.refused report.text.items) }
{
    let mut findings = Findings::new(alloc);
    if file.bytes.len() <= TEXT_LIMIT {
        find_stimulus(alloc, &mut findings, file.bytes, pads)?;
    }
    refusal(alloc, file, broken, &mut findings)
}

// The report of a source and a stimulus that break no rule.
fn lint_both(
    alloc: Global,
    source: File,
    file: File,
    checked: &Checked,
    stimulus: &Stimulus,
) -> Result<Report, NoMemory>
    ensures { IfOk result (λ report. Tells None report.refused report.text.items) }
{
    let mut warnings = warnings_of(alloc, source, checked)?;
    warn_stimulus(alloc, &mut warnings, file, checked, stimulus)?;
    clean(alloc, warnings)
}

// The report of a stimulus for a source that breaks no rule.
fn lint_stimulus(
    alloc: Global,
    source: File,
    file: File,
    checked: &Checked,
) -> Result<Report, NoMemory>
    requires { IsSource source.bytes.now checked.now.program }
    ensures { IfOk result (λ report. (first : Option BrokenRule)
        × OfHeld (OfStimulus source.entry.bytes.now) file.entry (fault_of first)
        × Tells first report.refused report.text.items) }
{
    let pads = checked.pads();
    match judge_stimulus(alloc, file, pads) {
        Ok(stimulus) => lint_both(alloc, source, file, checked, &stimulus),
        Err(Refusal::NoMemory) => Err(NoMemory),
        Err(Refusal::Broken(broken)) => refused_stimulus(alloc, file, pads, &broken),
    }
}

/// What is wrong with a source, and with a stimulus for it where the source breaks no rule. A report of a mistake
/// begins with the line that `macpitts trace` answers.
///
/// # Errors
/// Want of memory.
pub fn lint(alloc: Global, source: File, stimulus: Option<File>) -> Result<Report, NoMemory>
    ensures { IfOk result (λ report. (first : Option BrokenRule) × OfTexts source.entry stimulus.entry (fault_of first)
        × Tells first report.refused report.text.items) }
{
    match judge_source(alloc, source) {
        Err(Refusal::NoMemory) => Err(NoMemory),
        Err(Refusal::Broken(broken)) => refused_source(alloc, source, &broken),
        Ok(checked) => match stimulus {
            None => lint_source(alloc, source, &checked),
            Some(file) => lint_stimulus(alloc, source, file, &checked),
        },
    }
}
