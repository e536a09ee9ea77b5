//! Files.

ghost use Rattle.std.specs.Prelude.{◌≡◌, ◌≢◌, ℕ, ◌+◌, ◌-◌, ◌≤◌, ◌<◌, List, [], length, drop, slice_index, Bool, false};
ghost use Rattle.std.specs.Prelude.{◌∷◌, OnOk, IfOk, IfErr, MatchOption};
ghost use Rattle.mp_base.specs.declared.refusal.Family.TheVariants.{C};
ghost use Rattle.mp_base.specs.declared.refusal.Spot.TheVariants.{Offset};
ghost use Rattle.mp_base.specs.Refuses.{IsJudged};
ghost use Rattle.mp_base.specs.declared.refusal.Refusal.TheVariants as refusals;
ghost use Rattle.cif_form.specs.declared.command.Item.{Item};
ghost use Rattle.cif_form.specs.Fits.{Fits};
ghost use Rattle.cif_form.specs.Readers.{is_blank, past_blanks};
ghost use Rattle.cif_form.specs.Scans.{TextEnd, IsReadable, IsLateEnd, opens, Scans, FileScans};
ghost use Rattle.cif_form.specs.Scans.TextEnd.{Whole};
ghost use Rattle.cif_reader.specs.Refusing.{Refuses, RefusesAt, IsRead, IsStep, OfCif};

use crate::bytes::{is_blank, past_blanks};
use crate::command::command;
use crate::found::Found;
use cif_form::Command;
use cif_form::laws::{command_is_found, read_command_fits};
use cif_list::Cif;
use mp_base::{Broken, Family, Refusal, Rule, Spot};
use std::alloc::{AllocError, Global};
use std::mem::drop;

/// The refusal of rule C `number`.
fn broken(number: u16, offset: usize) -> Refusal
    ensures { result ≡ refusals.Broken
        (record { rule = record { family = C; number = number }; spot = Offset offset }) }
{
    Refusal::Broken(Broken {
        rule: Rule {
            family: Family::C,
            number,
        },
        spot: Spot::Offset(offset as u64),
    })
}

// Where the rest begins behind blanks and a semicolon.
fn past_semicolon(bytes: &[u8], at: usize) -> Option<usize>
    requires { at ≤ length bytes.now }
    ensures { MatchOption result ((more : List ℕ) → past_blanks (drop at bytes.now) ≢ 59 ∷ more)
        (λ end. (past_blanks (drop at bytes.now) ≡ 59 ∷ drop end bytes.now) × (at < end) × (end ≤ length bytes.now)) }
{
    let semicolon = past_blanks(bytes, at);
    if semicolon < bytes.len() && bytes[semicolon] == b';' {
        Some(semicolon + 1)
    } else {
        None
    }
}

// The command that begins here, up to its semicolon.
fn whole_command(
    alloc: Global,
    bytes: &[u8],
    at: usize,
) -> Result<Option<Found<Command>>, AllocError>
    requires { at < length bytes.now }
    ensures { IfOk result (λ r. MatchOption r (¬ IsReadable (drop at bytes.now))
        (λ c. IsRead bytes.now at c.value c.end)) }
{
    command_is_found();
    let Some(Found { value, end }) = command(alloc, bytes, at)? else {
        return Ok(None);
    };
    let Some(end) = past_semicolon(bytes, end) else {
        drop(value);
        return Ok(None);
    };
    Ok(Some(Found { value, end }))
}

// Whether a definition is open behind a command, or nothing where the command can't stand there.
fn opens(inside: bool, command: &Command) -> Option<bool>
    ensures { result ≡ opens inside command.now }
{
    match (command, inside) {
        (Command::Start { .. }, false) => Some(true),
        (Command::Finish, true) => Some(false),
        (Command::Start { .. } | Command::Delete(_), true) | (Command::Finish, false) => None,
        _ => Some(inside),
    }
}

/// A command that may stand where it does, where the rest begins, and whether a definition is open behind it.
#[derive(Drop)]
struct Step {
    command: Command,
    end: usize,
    inside: bool,
}

// The next command, with no blanks in front of it.
fn next_step(alloc: Global, bytes: &[u8], at: usize, inside: bool) -> Result<Step, Refusal>
    requires bound { at < length bytes.now }
    requires blank { is_blank (slice_index bytes.now at) ≡ false }
    requires empty { slice_index bytes.now at ≢ 59 }
    requires end { slice_index bytes.now at ≢ 69 }
    ensures ok { IfOk result (λ s. IsStep bytes.now at inside s.command s.end s.inside) }
    ensures fits { IfOk result (λ s. Fits s.command) }
    ensures err { IfErr result (RefusesAt inside bytes.now at) }
{
    read_command_fits();
    let Some(Found { value, end }) = whole_command(alloc, bytes, at)? else {
        return Err(broken(1, at));
    };
    if !value.fits() {
        return Err(broken(3, at));
    }
    let Some(inside) = opens(inside, &value) else {
        return Err(broken(4, at));
    };
    Ok(Step {
        command: value,
        end,
        inside,
    })
}

// What the `E` here does.
fn finish(bytes: &[u8], at: usize, inside: bool) -> Result<(), Refusal>
    requires bound { at < length bytes.now }
    requires byte { slice_index bytes.now at ≡ 69 }
    ensures ok { OnOk result (Scans inside at (drop at bytes.now) [] Whole) }
    ensures err { IfErr result (RefusesAt inside bytes.now at) }
{
    if inside {
        return Err(broken(4, at));
    }
    let after = past_blanks(bytes, at + 1);
    if after < bytes.len() {
        return Err(broken(5, after));
    }
    Ok(())
}

// Where something else than blanks and empty commands is next.
fn skip(bytes: &[u8], at: usize) -> usize
    requires { at ≤ length bytes.now }
    ensures within { result ≤ length bytes.now }
    ensures behind { at ≤ result }
    ensures blank { result < length bytes.now → is_blank (slice_index bytes.now result) ≡ false }
    ensures empty { result < length bytes.now → slice_index bytes.now result ≢ 59 }
    ensures skipped { (inside : Bool) (items : List Item) (e : TextEnd)
        → Scans inside result (drop result bytes.now) items e
        → Scans inside at (drop at bytes.now) items e }
{
    for end in at..bytes.len() {
        if !is_blank(bytes[end]) && bytes[end] != b';' {
            return end;
        }
    }
    bytes.len()
}

// The `E` of the file, where nothing but blanks stands before it, and one at least.
fn late_end(bytes: &[u8]) -> Option<usize>
    ensures { MatchOption result ((offset : ℕ) → ¬ IsLateEnd bytes.now offset) (IsLateEnd bytes.now) }
{
    let start = past_blanks(bytes, 0);
    if 0 < start && start < bytes.len() && bytes[start] == b'E' {
        Some(start)
    } else {
        None
    }
}

// Adds the commands of a file up to its end.
fn add_commands(alloc: Global, bytes: &[u8], cif: &mut Cif) -> Result<(), Refusal>
    requires empty { cif.old ≡ [] }
    requires early { (offset : ℕ) → ¬ IsLateEnd bytes.now offset }
    ensures whole { OnOk result (FileScans bytes.now cif.new Whole) }
    ensures first { IfErr result (Refuses bytes.now) }
{
    let mut inside = false;
    let mut at = 0;
    'commands: loop {
        let start = skip(bytes, at);
        if start == bytes.len() {
            return Err(broken(2, start));
        }
        if bytes[start] == b'E' {
            finish(bytes, start, inside)?;
            return Ok(());
        }
        let next = next_step(alloc, bytes, start, inside)?;
        cif.push(start as u64, &next.command)?;
        inside = next.inside;
        at = next.end;
        drop(next);
    }
}

/// The commands of a CIF file, each with the offset of its first byte.
///
/// Refuses a file that breaks a rule, the first of them as the file is read: C1 (no command can be read where one
/// begins, or blanks stand before the `E` of an empty file), C2 (the file ends where a command or `E` should begin), C3
/// (a number over 2^31 - 1 in size), C4 (a start, a deletion or the end inside a definition, or a finish outside one),
/// C5 (more than blanks behind the `E`).
pub fn read_cif(alloc: Global, bytes: &[u8]) -> Result<Cif, Refusal>
    ensures whole { IfOk result (λ cif. FileScans bytes.now cif Whole) }
    ensures judged { IsJudged (OfCif bytes.now) result }
{
    if let Some(offset) = late_end(bytes) {
        return Err(broken(1, offset));
    }
    let mut cif = Cif::new(alloc);
    add_commands(alloc, bytes, &mut cif)?;
    Ok(cif)
}
