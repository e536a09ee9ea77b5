//! Plans that words stand for.

ghost use Rattle.std.specs.Prelude.{◌≡◌, ◌≢◌, ◌+◌, ◌<◌, ◌^◌, [], ◌∷◌, ◌==◌, ℕ, List, Some, Any, IfOk, IfErr, OnOk};
ghost use Rattle.std.specs.Prelude.{MatchBool, MatchOption, false, length, map, string_bytes};
ghost use Rattle.std.specs.Char.{is_ascii_digit};
ghost use Rattle.std.specs.List.{list_all, slice_split};
ghost use Rattle.mp_base.specs.Refuses.{IsJudged, IsRefusal};
ghost use Rattle.board.specs.declared.plan.Swap.{Swap as SwapValue};
ghost use Rattle.mp_base.specs.declared.refusal.Spot.TheVariants.{Named};
ghost use Rattle.board.specs.Links.{IsLinkOf, naming, rule_b};
ghost use Rattle.board.specs.Plans.{BreaksAs, BreaksB3, Follows, IsBrokenBehind, IsPlan, IsSwapOf, IsTaken, IsUnlinked};
ghost use Rattle.board.specs.Plans.{IsUntimely, IsWhole, OfPlan, Setting, clock_of, link_with};
ghost use Rattle.board.specs.Plans.{swap_named_by, swap_naming};

use crate::link::Link;
use crate::part::NamedPart;
use crate::plan::{Plan, Swap, SwapNaming};
use crate::reading::{broken, fields, has_part, part_named, read_link, rule};
use mp_base::{List, Pads, Refusal};
use std::alloc::Global;

// What stands behind the `@` of a swap word.
fn swap_text(word: &str) -> Option<&str>
    ensures { MatchOption result ((text : List ℕ) → word.now ≢ 64 ∷ text) (λ text. word.now ≡ 64 ∷ text.now) }
{
    word.strip_prefix('@')
}

fn are_digits(word: &str) -> bool
    ensures { result ≡ list_all is_ascii_digit word.now }
{
    word.as_bytes().iter().all(|byte| byte.is_ascii_digit())
}

// The number that one to five digits spell.
fn clock_of(word: &str) -> Option<u32>
    ensures { result ≡ clock_of word.now }
{
    if !are_digits(word) || word.is_empty() || word.len() > 5 {
        return None;
    }
    match word.parse::<u32>() {
        Ok(clock) => Some(clock),
        Err(_) => None,
    }
}

// What a swap word names, of which this stands behind its `@`.
fn swap_naming(text: &str, parts: &[NamedPart]) -> SwapNaming
    requires { length parts.now < 2 ^ 32 }
    ensures { result
        ≡ swap_named_by (map (λ p. string_bytes p.name) parts.now) (slice_split (λ c. c == 58) text.now) }
{
    match fields(text) {
        Some((clock, old, fresh)) => SwapNaming {
            clock: clock_of(clock),
            old: part_named(parts, old),
            fresh: part_named(parts, fresh),
        },
        None => SwapNaming {
            clock: None,
            old: None,
            fresh: None,
        },
    }
}

// Whether a swap has a later clock.
fn any_later(swaps: &[Swap], clock: u32) -> bool
    ensures { MatchBool result (Any (λ (s : SwapValue). clock < s.clock) swaps.now)
        (¬ Any (λ (s : SwapValue). clock < s.clock) swaps.now) }
{
    swaps.iter().any(|swap| clock < swap.clock)
}

// Whether a swap has this new part.
fn any_with(swaps: &[Swap], fresh: u32) -> bool
    ensures { MatchBool result (Any (λ (s : SwapValue). s.fresh ≡ fresh) swaps.now)
        (¬ Any (λ (s : SwapValue). s.fresh ≡ fresh) swaps.now) }
{
    swaps.iter().any(|swap| swap.fresh == fresh)
}

// The clock, where a swap may be made before it.
fn timely(clock: Option<u32>, clocks: u32, earlier: &[Swap]) -> Option<u32>
    ensures { MatchOption result (IsUntimely clocks earlier.now clock)
        (λ k. (clock ≡ Some k) × ¬ IsUntimely clocks earlier.now clock) }
{
    match clock {
        None => None,
        Some(clock) => {
            if clocks <= clock || any_later(earlier, clock) {
                None
            } else {
                Some(clock)
            }
        }
    }
}

// The place of the link that has this part.
fn place_with(links: &[Link], part: u32) -> Option<usize>
    ensures { result ≡ link_with links.now part }
{
    links.iter().position(|link| link.part == part)
}

fn link_with(links: &[Link], part: u32) -> Option<u32>
    requires { length links.now < 2 ^ 32 }
    ensures { result ≡ link_with links.now part }
{
    match place_with(links, part) {
        Some(place) => Some(place as u32),
        None => None,
    }
}

// The place of the link of a part.
fn linked(old: Option<u32>, links: &[Link]) -> Option<u32>
    requires { length links.now < 2 ^ 32 }
    ensures { MatchOption result (IsUnlinked links.now old)
        (λ link. (part : ℕ) × (old ≡ Some part) × (link_with links.now part ≡ Some link)) }
{
    match old {
        None => None,
        Some(part) => link_with(links, part),
    }
}

// The new part, where it is free.
fn free(fresh: Option<u32>, plan: &Plan) -> Option<u32>
    ensures { MatchOption result (IsTaken plan.now fresh) (λ part. (fresh ≡ Some part) × ¬ IsTaken plan.now fresh) }
{
    match fresh {
        None => None,
        Some(part) => {
            if has_part(plan.links.as_slice(), part) || any_with(plan.swaps.as_slice(), part) {
                None
            } else {
                Some(part)
            }
        }
    }
}

// The swap that a word stands for behind a plan, where B3 isn't broken.
fn judge_swap(named: SwapNaming, plan: &Plan, clocks: u32) -> Option<Swap>
    requires { length plan.now.links < 2 ^ 32 }
    ensures { MatchOption result (BreaksB3 clocks plan.now named) (IsSwapOf clocks plan.now named) }
{
    let clock = timely(named.clock, clocks, plan.swaps.as_slice())?;
    let link = linked(named.old, plan.links.as_slice())?;
    let fresh = free(named.fresh, plan)?;
    Some(Swap { clock, link, fresh })
}

// The swap that a word stands for behind a plan, or B3, at the word.
fn read_swap(
    alloc: Global,
    word: &str,
    text: &str,
    parts: &[NamedPart],
    plan: &Plan,
    clocks: u32,
) -> Result<Swap, Refusal>
    requires parts { length parts.now < 2 ^ 32 }
    requires few { length plan.now.links < 2 ^ 32 }
    requires text { word.now ≡ 64 ∷ text.now }
    ensures ok { IfOk result
        (IsSwapOf clocks plan.now (swap_naming (map (λ p. string_bytes p.name) parts.now) word.now)) }
    ensures err { IfErr result (IsRefusal (λ b. BreaksB3 clocks plan.now
        (swap_naming (map (λ p. string_bytes p.name) parts.now) word.now)
        × (b.rule ≡ rule_b 3) × (b.spot ≡ Named word.now))) }
{
    match judge_swap(swap_naming(text, parts), plan, clocks) {
        Some(swap) => Ok(swap),
        None => Err(Refusal::Broken(broken(alloc, rule(3), word)?)),
    }
}

// The link that a word stands for behind a plan, or the rule that it breaks, at the word.
fn read_plain(
    alloc: Global,
    word: &str,
    parts: &[NamedPart],
    pads: &Pads,
    plan: &Plan,
) -> Result<Link, Refusal>
    requires parts { length parts.now < 2 ^ 32 }
    requires inputs { length pads.now.inputs < 2 ^ 32 }
    requires outputs { length pads.now.outputs < 2 ^ 32 }
    ensures ok { IfOk result (λ link.
        IsLinkOf (naming (map (λ p. string_bytes p.name) parts.now) pads.now word.now) plan.now.links link
        × (plan.now.swaps ≡ [])) }
    ensures few { IfOk result (λ link. length plan.now.links + 1 < 2 ^ 32) }
    ensures err { IfErr result (IsRefusal (λ b. (BreaksAs false (record {
      clocks = 0;
      parts = map (λ p. string_bytes p.name) parts.now;
      pads = pads.now;
    }) plan.now word.now b.rule) × (b.spot ≡ Named word.now))) }
{
    let link = read_link(alloc, word, parts, pads, plan.links.as_slice())?;
    if plan.links.len() >= u32::MAX as usize {
        return Err(Refusal::NoMemory);
    }
    if plan.swaps.as_slice().is_empty() {
        Ok(link)
    } else {
        Err(Refusal::Broken(broken(alloc, rule(3), word)?))
    }
}

// The plan with the link or the swap that a word stands for.
fn read_word(
    alloc: Global,
    word: &str,
    parts: &[NamedPart],
    pads: &Pads,
    clocks: u32,
    plan: &mut Plan,
) -> Result<(), Refusal>
    requires parts { length parts.now < 2 ^ 32 }
    requires inputs { length pads.now.inputs < 2 ^ 32 }
    requires outputs { length pads.now.outputs < 2 ^ 32 }
    requires few { length plan.old.links < 2 ^ 32 }
    ensures few { OnOk result (length plan.new.links < 2 ^ 32) }
    ensures ok { let setting : Setting = record {
      clocks = clocks;
      parts = map (λ p. string_bytes p.name) parts.now;
      pads = pads.now;
    } in OnOk result (Follows setting plan.old word.now plan.new) }
    ensures err { let setting : Setting = record {
      clocks = clocks;
      parts = map (λ p. string_bytes p.name) parts.now;
      pads = pads.now;
    } in IfErr result (IsRefusal (IsBrokenBehind setting plan.old word.now)) }
{
    match swap_text(word) {
        Some(text) => {
            let swap = read_swap(alloc, word, text, parts, plan, clocks)?;
            Ok(plan.swaps.push(swap)?)
        }
        None => {
            let link = read_plain(alloc, word, parts, pads, plan)?;
            Ok(plan.links.push(link)?)
        }
    }
}

/// The links and the swaps that words stand for, for a run of so many clocks. A word that begins with `@` is a swap
/// `@CLOCK:OLD:NEW`: before that clock the part NEW takes the place of the part OLD of an earlier link. Any other is a
/// link, as in `read_links`, and stands before all swaps.
///
/// # Errors
///
/// The first broken rule, word by word, at the word. At a link B1 and B2 as in `read_links`, or else B3 where a swap
/// stands before it. At a swap B3: it isn't of this form, with one to five digits, CLOCK isn't below `clocks` or is
/// below that of an earlier swap, OLD isn't the part of an earlier link, or NEW names no part, or that of an earlier
/// link, or the NEW of an earlier swap. `NoMemory` is want of memory.
pub fn read_plan(
    alloc: Global,
    words: &[String],
    parts: &[NamedPart],
    pads: &Pads,
    clocks: u32,
) -> Result<Plan, Refusal>
    requires parts { length parts.now < 2 ^ 32 }
    requires inputs { length pads.now.inputs < 2 ^ 32 }
    requires outputs { length pads.now.outputs < 2 ^ 32 }
    ensures plan { let setting : Setting = record {
      clocks = clocks;
      parts = map (λ p. string_bytes p.name) parts.now;
      pads = pads.now;
    } in IfOk result (IsPlan setting (map string_bytes words.now)) }
    ensures whole { let setting : Setting = record {
      clocks = clocks;
      parts = map (λ p. string_bytes p.name) parts.now;
      pads = pads.now;
    } in IfOk result (IsWhole setting) }
    ensures judged { let setting : Setting = record {
      clocks = clocks;
      parts = map (λ p. string_bytes p.name) parts.now;
      pads = pads.now;
    } in IsJudged (OfPlan setting (map string_bytes words.now)) result }
{
    let mut plan = Plan {
        links: List::new(alloc),
        swaps: List::new(alloc),
    };
    for word in words {
        read_word(alloc, word.as_str(), parts, pads, clocks, &mut plan)?;
    }
    Ok(plan)
}
