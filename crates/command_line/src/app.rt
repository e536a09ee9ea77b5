//! The command that clap is given.

ghost use Rattle.std.specs.Prelude.{◌≡◌, IfOk, false, map};
ghost use Rattle.clap.specs.Words.{app_of, rule_of};
ghost use Rattle.command_line.specs.App as spec;

use clap::{Arg, Command};
use std::alloc::{AllocError, Global};

// A word that has to be there.
fn word<'a>(alloc: Global, id: &'a str) -> Arg<'a>
    ensures rule { rule_of result ≡ spec.word id.entry.now }
    ensures local { result.global ≡ false }
{
    Arg::new(alloc, id).required(true)
}

// One word or more.
fn words<'a>(alloc: Global, id: &'a str) -> Arg<'a>
    ensures rule { rule_of result ≡ spec.words id.entry.now }
    ensures local { result.global ≡ false }
{
    word(alloc, id).num_args(1..)
}

// A subcommand that takes a word for each id.
fn form<'a>(alloc: Global, name: &'a str, ids: &[&'a str]) -> Result<Command<'a>, AllocError>
    ensures { IfOk result (spec.IsForm (spec.form name.entry.now (map (λ id. id.now) ids.now))) }
{
    let mut form = Command::new(alloc, name);
    for id in ids {
        form = form.arg(word(alloc, *id))?;
    }
    Ok(form)
}

// The subcommand that takes links behind its other words.
fn board<'a>(alloc: Global) -> Result<Command<'a>, AllocError>
    ensures { IfOk result (spec.IsForm spec.board) }
{
    form(alloc, "board", &["source", "cif", "clocks"])?.arg(words(alloc, "links"))
}

// The program before its forms.
fn top<'a>(alloc: Global) -> Command<'a>
    ensures { app_of result ≡ spec.alone spec.bare_top }
{
    Command::new(alloc, "macpitts")
        .no_binary_name(true)
        .disable_help_flag(true)
        .disable_help_subcommand(true)
        .disable_version_flag(true)
        .subcommand_required(true)
}

// The command with one more form.
fn with_form<'a>(
    alloc: Global,
    command: Command<'a>,
    name: &'a str,
    ids: &[&'a str],
) -> Result<Command<'a>, AllocError>
    ensures { IfOk result
        (spec.AddsForm command.entry (spec.form name.entry.now (map (λ id. id.now) ids.now))) }
{
    command.subcommand(form(alloc, name, ids)?)
}

// The command with the form of a board.
fn with_board<'a>(alloc: Global, command: Command<'a>) -> Result<Command<'a>, AllocError>
    ensures { IfOk result (spec.AddsForm command.entry spec.board) }
{
    command.subcommand(board(alloc)?)
}

/// The program with its forms.
pub fn app<'a>(alloc: Global) -> Result<Command<'a>, AllocError>
    ensures { IfOk result (λ c. app_of c ≡ spec.app) }
{
    let trace = with_form(alloc, top(alloc), "trace", &["source", "stimulus"])?;
    let compile = with_form(alloc, trace, "compile", &["source", "cif"])?;
    let replay = with_form(alloc, compile, "replay", &["source", "stimulus", "cif"])?;
    let sim = with_form(alloc, replay, "sim", &["cif", "stimulus"])?;
    let net = with_form(alloc, sim, "net", &["cif"])?;
    let stats = with_form(alloc, net, "stats", &["source"])?;
    let board = with_board(alloc, stats)?;
    let make = with_form(alloc, board, "make", &["number", "cif"])?;
    with_form(alloc, make, "rules", &["cif"])
}
