//! The command that clap's matches hold.

ghost use Rattle.std.specs.Prelude.{◌≡◌, ◌-◌, ◌^◌, codes, map, string_bytes};
ghost use Rattle.std.specs.Option.{option_map};
ghost use Rattle.clap.specs.Words.{first_of, found_of, rows_of, subcommand_rows_of};
ghost use Rattle.command_line.specs.Command as spec;
ghost use Rattle.command_line.specs.Command.{seen, swaps_first};
ghost use Rattle.command_line.specs.Number.{number_in};
ghost use Rattle.command_line.specs.declared.command.TheConstants.{CLOCK_LIMIT};
ghost use Rattle.command_line.specs.Read.{read_board, read_make, read_met, read_named};
ghost use Rattle.command_line.specs.Read.{read_one, read_two, read_three};

use crate::command::{CLOCK_LIMIT, Command};
use crate::number::number_in;
use clap::ArgMatches;

// The word that an argument took.
fn text<'a>(matches: &ArgMatches<'a>, id: &str) -> Option<&'a str>
    ensures { option_map (λ s. s.now) result ≡ first_of id.now (rows_of (found_of matches.now)) }
{
    matches.get_str(id)
}

fn trace<'a>(matches: &ArgMatches<'a>) -> Option<Command<'a>>
    ensures { option_map seen result
        ≡ read_two spec.Trace (codes "source") (codes "stimulus") (rows_of (found_of matches.now)) }
{
    Some(Command::Trace(text(matches, "source")?, text(matches, "stimulus")?))
}

fn compile<'a>(matches: &ArgMatches<'a>) -> Option<Command<'a>>
    ensures { option_map seen result
        ≡ read_two spec.Compile (codes "source") (codes "cif") (rows_of (found_of matches.now)) }
{
    Some(Command::Compile(text(matches, "source")?, text(matches, "cif")?))
}

fn replay<'a>(matches: &ArgMatches<'a>) -> Option<Command<'a>>
    ensures { option_map seen result ≡ read_three spec.Replay (codes "source") (codes "stimulus") (codes "cif")
        (rows_of (found_of matches.now)) }
{
    Some(Command::Replay(
        text(matches, "source")?,
        text(matches, "stimulus")?,
        text(matches, "cif")?,
    ))
}

fn sim<'a>(matches: &ArgMatches<'a>) -> Option<Command<'a>>
    ensures { option_map seen result
        ≡ read_two spec.Sim (codes "cif") (codes "stimulus") (rows_of (found_of matches.now)) }
{
    Some(Command::Sim(text(matches, "cif")?, text(matches, "stimulus")?))
}

fn net<'a>(matches: &ArgMatches<'a>) -> Option<Command<'a>>
    ensures { option_map seen result ≡ read_one spec.Net (codes "cif") (rows_of (found_of matches.now)) }
{
    Some(Command::Net(text(matches, "cif")?))
}

fn stats<'a>(matches: &ArgMatches<'a>) -> Option<Command<'a>>
    ensures { option_map seen result ≡ read_one spec.Stats (codes "source") (rows_of (found_of matches.now)) }
{
    Some(Command::Stats(text(matches, "source")?))
}

// How many clocks a board runs.
fn clocks(word: &str) -> Option<u32>
    ensures { result ≡ number_in 5 1 CLOCK_LIMIT word.now }
{
    let clocks = number_in(word, 5, 1, CLOCK_LIMIT)?;
    Some(clocks as u32)
}

// Whether the first of these words is a swap.
fn swaps_first(words: &[String]) -> bool
    ensures { result ≡ swaps_first (map string_bytes words.now) }
{
    match words.first() {
        Some(word) => word.as_str().starts_with('@'),
        None => false,
    }
}

fn board<'a>(matches: &ArgMatches<'a>, links: &'a [String]) -> Option<Command<'a>>
    ensures { option_map seen result ≡ read_board (map string_bytes links.now) (rows_of (found_of matches.now)) }
{
    let source = text(matches, "source")?;
    let cif = text(matches, "cif")?;
    let word = text(matches, "clocks")?;
    if swaps_first(links) {
        return None;
    }
    let clocks = clocks(word)?;
    Some(Command::Board(source, cif, clocks, links))
}

// What a program is made of.
fn seed(word: &str) -> Option<u64>
    ensures { result ≡ number_in 20 0 (2 ^ 64 - 1) word.now }
{
    number_in(word, 20, 0, u64::MAX)
}

fn make<'a>(matches: &ArgMatches<'a>) -> Option<Command<'a>>
    ensures { option_map seen result ≡ read_make (rows_of (found_of matches.now)) }
{
    let number = text(matches, "number")?;
    let cif = text(matches, "cif")?;
    Some(Command::Make(seed(number)?, cif))
}

fn rules<'a>(matches: &ArgMatches<'a>) -> Option<Command<'a>>
    ensures { option_map seen result ≡ read_one spec.Rules (codes "cif") (rows_of (found_of matches.now)) }
{
    Some(Command::Rules(text(matches, "cif")?))
}

// The command that the matches of a subcommand hold, by its name, and the words behind the fourth.
fn command_in<'a>(name: &str, matches: &ArgMatches<'a>, links: &'a [String]) -> Option<Command<'a>>
    ensures { option_map seen result
        ≡ read_named (map string_bytes links.now) name.now (rows_of (found_of matches.now)) }
{
    if name == "trace" {
        trace(matches)
    } else if name == "compile" {
        compile(matches)
    } else if name == "replay" {
        replay(matches)
    } else if name == "sim" {
        sim(matches)
    } else if name == "net" {
        net(matches)
    } else if name == "stats" {
        stats(matches)
    } else if name == "board" {
        board(matches, links)
    } else if name == "make" {
        make(matches)
    } else if name == "rules" {
        rules(matches)
    } else {
        None
    }
}

/// The command of the subcommand that clap met, and the words behind the fourth.
pub fn command_met<'a>(matches: &ArgMatches<'a>, links: &'a [String]) -> Option<Command<'a>>
    ensures { option_map seen result ≡ read_met (map string_bytes links.now) (subcommand_rows_of matches.now) }
{
    let (name, inner) = matches.subcommand()?;
    command_in(name, inner, links)
}
