//! The command that the words stand for.

ghost use Rattle.std.specs.Prelude.{◌≡◌, IfOk, MatchOption, None, false, drop, map, string_bytes};
ghost use Rattle.std.specs.List.{list_any};
ghost use Rattle.std.specs.Option.{option_map};
ghost use Rattle.clap.specs.Words.{subcommand_rows_of};
ghost use Rattle.command_line.specs.Command.{begins_with_dash, form_of, command_of, seen};
ghost use Rattle.command_line.specs.Read.{answer_of, read_met};

use crate::app::app;
use crate::matched::command_met;
use clap::error::ErrorKind;
use clap::{ArgMatches, Error};
use std::alloc::{AllocError, Global};

/// The most clocks that a board runs.
pub const CLOCK_LIMIT: u64 = 65536;

/// A command, by the names of its files. A board's links are the words as they stand; its number of clocks is from 1 to
/// `CLOCK_LIMIT`.
#[derive(Clone, Copy, Debug)]
pub enum Command<'a> {
    Trace(&'a str, &'a str),
    Compile(&'a str, &'a str),
    Replay(&'a str, &'a str, &'a str),
    Sim(&'a str, &'a str),
    Net(&'a str),
    Stats(&'a str),
    Board(&'a str, &'a str, u32, &'a [String]),
    Make(u64, &'a str),
    Rules(&'a str),
}

fn begins_with_dash(word: &str) -> bool
    ensures { result ≡ begins_with_dash word.now }
{
    match word.as_bytes() {
        [first, ..] => *first == b'-',
        [] => false,
    }
}

fn any_dash(words: &[String]) -> bool
    ensures { result ≡ list_any (λ word. begins_with_dash (string_bytes word)) words.now }
{
    words.iter().any(|word| begins_with_dash(word.as_str()))
}

// What clap answered, where only want of memory stays an error.
fn answered<'a>(parsed: Result<ArgMatches<'a>, Error>) -> Result<Option<ArgMatches<'a>>, AllocError>
    ensures { result ≡ answer_of parsed.entry }
{
    match parsed {
        Ok(matches) => Ok(Some(matches)),
        Err(error) => match error.kind() {
            ErrorKind::OutOfMemory => Err(AllocError),
            _ => Ok(None),
        },
    }
}

// The matches, or `None` where clap refuses the words.
fn parse<'a>(alloc: Global, words: &'a [String]) -> Result<Option<ArgMatches<'a>>, AllocError>
    requires { list_any begins_with_dash (map string_bytes words.now) ≡ false }
    ensures { IfOk result (λ found. MatchOption found (form_of (map string_bytes words.now) ≡ None)
        (λ m. read_met (drop 4 (map string_bytes words.now)) (subcommand_rows_of m)
        ≡ form_of (map string_bytes words.now))) }
{
    answered(app(alloc)?.try_get_matches_from(words))
}

// The words behind the fourth.
fn links(words: &[String]) -> &[String]
    ensures { result.now ≡ drop 4 words.now }
{
    match words {
        [_, _, _, _, links @ ..] => links,
        _ => &[],
    }
}

// The command that clap finds in words without dashes.
fn found_command<'a>(alloc: Global, words: &'a [String]) -> Result<Option<Command<'a>>, AllocError>
    requires { list_any begins_with_dash (map string_bytes words.now) ≡ false }
    ensures { IfOk result (λ found. option_map seen found ≡ form_of (map string_bytes words.now)) }
{
    match parse(alloc, words)? {
        Some(matches) => Ok(command_met(&matches, links(words))),
        None => Ok(None),
    }
}

/// The command that the words stand for, or `None` where they are in no form.
pub fn command_of<'a>(alloc: Global, words: &'a [String]) -> Result<Option<Command<'a>>, AllocError>
    ensures { IfOk result (λ found. option_map seen found ≡ command_of words.now) }
{
    if any_dash(words) {
        Ok(None)
    } else {
        found_command(alloc, words)
    }
}
