//! Links that words stand for.

ghost use Rattle.std.specs.Prelude.{◌≡◌, ◌<◌, ◌^◌, [], ◌∷◌, ◌==◌, Some, All, Any, IfOk, IfErr, MatchBool, MatchOption};
ghost use Rattle.std.specs.Prelude.{length, map, string_bytes};
ghost use Rattle.std.specs.List.{slice_split};
ghost use Rattle.std.specs.Str.{bytes_eq};
ghost use Rattle.mp_base.specs.declared.refusal.Spot.TheVariants.{Named};
ghost use Rattle.mp_base.specs.Refuses.{IsJudged, IsRefusal};
ghost use Rattle.board.specs.declared.link.Link.{Link as LinkValue};
ghost use Rattle.board.specs.Boarding.{AreWires};
ghost use Rattle.board.specs.Links.{AreLinks, Breaks, BreaksB1, BreaksB2, IsBrokenAt, IsLinkOf, IsThree, OfWords};
ghost use Rattle.board.specs.Links.{driven_of, naming, pad_of, place_of, rule_b};

use crate::link::{Link, Naming};
use crate::part::NamedPart;
use mp_base::{Broken, Family, List, Name, Pad, Pads, Refusal, Rule, Spot};
use std::alloc::{AllocError, Global};

// What stands before the first colon and behind it.
fn split(text: &str) -> Option<(&str, &str)>
    ensures { MatchOption result (slice_split (λ c. c == 58) text.now ≡ text.now ∷ [])
        (λ p. slice_split (λ c. c == 58) text.now ≡ p.0.now ∷ slice_split (λ c. c == 58) p.1.now) }
{
    text.split_once(':')
}

// The fields between colons, where there are three.
pub(crate) fn fields(word: &str) -> Option<(&str, &str, &str)>
    ensures { MatchOption result (¬ IsThree (slice_split (λ c. c == 58) word.now))
        (λ f. slice_split (λ c. c == 58) word.now ≡ f.0.now ∷ f.1.now ∷ f.2.now ∷ []) }
{
    match split(word) {
        None => None,
        Some((part, rest)) => match split(rest) {
            None => None,
            Some((seen, driven)) => match split(driven) {
                None => Some((part, seen, driven)),
                Some(_) => None,
            },
        },
    }
}

fn is_part(part: &NamedPart, name: &str) -> bool
    ensures { result ≡ bytes_eq (string_bytes part.now.name) name.now }
{
    part.name.as_str() == name
}

fn is_pad(pad: &Pad, name: &str) -> bool
    ensures { result ≡ bytes_eq pad.now.name name.now }
{
    pad.name.bytes() == name.as_bytes()
}

// The place of the first part of a name.
pub(crate) fn part_named(parts: &[NamedPart], name: &str) -> Option<u32>
    requires { length parts.now < 2 ^ 32 }
    ensures { result ≡ place_of (map (λ p. string_bytes p.name) parts.now) name.now }
{
    for place in 0..parts.len() as u32 {
        if is_part(&parts[place as usize], name) {
            return Some(place);
        }
    }
    None
}

// The place of the first pad of a name.
fn pad_named(pads: &[Pad], name: &str) -> Option<u32>
    requires { length pads.now < 2 ^ 32 }
    ensures { result ≡ pad_of pads.now name.now }
{
    for place in 0..pads.len() as u32 {
        if is_pad(&pads[place as usize], name) {
            return Some(place);
        }
    }
    None
}

// The place of the first input of a name, which isn't `reset`.
fn driven_named(pads: &[Pad], name: &str) -> Option<u32>
    requires { length pads.now < 2 ^ 32 }
    ensures { result ≡ driven_of pads.now name.now }
{
    if name == "reset" {
        None
    } else {
        pad_named(pads, name)
    }
}

// What a word names.
fn naming(word: &str, parts: &[NamedPart], pads: &Pads) -> Naming
    requires parts { length parts.now < 2 ^ 32 }
    requires inputs { length pads.now.inputs < 2 ^ 32 }
    requires outputs { length pads.now.outputs < 2 ^ 32 }
    ensures { result ≡ naming (map (λ p. string_bytes p.name) parts.now) pads.now word.now }
{
    match fields(word) {
        Some((part, seen, driven)) => {
            let place = part_named(parts, part);
            let output = pad_named(pads.outputs.as_slice(), seen);
            let input = driven_named(pads.inputs.as_slice(), driven);
            Naming {
                part: place,
                seen: output,
                driven: input,
            }
        }
        None => Naming {
            part: None,
            seen: None,
            driven: None,
        },
    }
}

pub(crate) fn rule(number: u16) -> Rule
    ensures { result ≡ rule_b number }
{
    Rule {
        family: Family::B,
        number,
    }
}

// Whether a link has this part.
pub(crate) fn has_part(links: &[Link], part: u32) -> bool
    ensures { MatchBool result (Any (λ (l : LinkValue). l.part ≡ part) links.now)
        (¬ Any (λ (l : LinkValue). l.part ≡ part) links.now) }
{
    links.iter().any(|link| link.part == part)
}

// Whether a link drives this input.
fn drives(links: &[Link], input: u32) -> bool
    ensures { MatchBool result (Any (λ (l : LinkValue). l.driven ≡ input) links.now)
        (¬ Any (λ (l : LinkValue). l.driven ≡ input) links.now) }
{
    links.iter().any(|link| link.driven == input)
}

// The part, where B1 isn't broken.
fn free_part(named: Naming, earlier: &[Link]) -> Option<u32>
    ensures { MatchOption result (BreaksB1 earlier.now named)
        (λ part. (named.part ≡ Some part) × ¬ BreaksB1 earlier.now named) }
{
    match named.part {
        None => None,
        Some(part) => {
            if has_part(earlier, part) {
                None
            } else {
                Some(part)
            }
        }
    }
}

// The output and the input, where B2 isn't broken.
fn free_pads(named: Naming, earlier: &[Link]) -> Option<(u32, u32)>
    ensures { MatchOption result (BreaksB2 earlier.now named)
        (λ p. (named.seen ≡ Some p.0) × (named.driven ≡ Some p.1) × ¬ BreaksB2 earlier.now named) }
{
    match (named.seen, named.driven) {
        (Some(seen), Some(driven)) => {
            if drives(earlier, driven) {
                None
            } else {
                Some((seen, driven))
            }
        }
        _ => None,
    }
}

// The link that a word stands for behind some links, or the rule that it breaks.
fn judge(named: Naming, earlier: &[Link]) -> Result<Link, Rule>
    ensures ok { IfOk result (IsLinkOf named earlier.now) }
    ensures err { IfErr result (Breaks earlier.now named) }
{
    match free_part(named, earlier) {
        None => Err(rule(1)),
        Some(part) => match free_pads(named, earlier) {
            None => Err(rule(2)),
            Some((seen, driven)) => Ok(Link { part, seen, driven }),
        },
    }
}

pub(crate) fn broken(alloc: Global, rule: Rule, word: &str) -> Result<Broken, AllocError>
    ensures { IfOk result (λ b. (b.rule ≡ rule) × (b.spot ≡ Named word.now)) }
{
    Ok(Broken {
        rule,
        spot: Spot::Named(Name::from_slice(alloc, word.as_bytes())?),
    })
}

// The link that a word stands for behind some links, or the rule that it breaks, at the word.
pub(crate) fn read_link(
    alloc: Global,
    word: &str,
    parts: &[NamedPart],
    pads: &Pads,
    earlier: &[Link],
) -> Result<Link, Refusal>
    requires parts { length parts.now < 2 ^ 32 }
    requires inputs { length pads.now.inputs < 2 ^ 32 }
    requires outputs { length pads.now.outputs < 2 ^ 32 }
    ensures ok { IfOk result
        (IsLinkOf (naming (map (λ p. string_bytes p.name) parts.now) pads.now word.now) earlier.now) }
    ensures err { IfErr result (IsRefusal
        (IsBrokenAt (naming (map (λ p. string_bytes p.name) parts.now) pads.now word.now) earlier.now word.now)) }
{
    match judge(naming(word, parts, pads), earlier) {
        Ok(link) => Ok(link),
        Err(rule) => Err(Refusal::Broken(broken(alloc, rule, word)?)),
    }
}

/// The links that words stand for, each `PART:SEEN:DRIVEN`: the first part of the name PART sees the output SEEN and
/// drives the input DRIVEN.
///
/// # Errors
///
/// The first broken rule, word by word, at the word: B1 where it isn't of this form, names no part, or the part of an
/// earlier link; or else B2 where SEEN is no output, or DRIVEN is no input, is `reset`, or is driven by an earlier
/// link. `NoMemory` is want of memory.
pub fn read_links(
    alloc: Global,
    words: &[String],
    parts: &[NamedPart],
    pads: &Pads,
) -> Result<List<Link>, Refusal>
    requires parts { length parts.now < 2 ^ 32 }
    requires inputs { length pads.now.inputs < 2 ^ 32 }
    requires outputs { length pads.now.outputs < 2 ^ 32 }
    ensures links { IfOk result
        (AreLinks (map (λ p. string_bytes p.name) parts.now) pads.now (map string_bytes words.now)) }
    ensures wires { IfOk result (AreWires pads.now) }
    ensures parts { IfOk result (λ links. All (λ l. l.part < length parts.now) links) }
    ensures judged { IsJudged
        (OfWords (map (λ p. string_bytes p.name) parts.now) pads.now (map string_bytes words.now)) result }
{
    let mut links = List::new(alloc);
    for word in words {
        let link = read_link(alloc, word.as_str(), parts, pads, links.as_slice())?;
        links.push(link)?;
    }
    Ok(links)
}
