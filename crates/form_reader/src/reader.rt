//! Reading forms.

ghost use Rattle.std.specs.Prelude.{◌≡◌, ◌≢◌, ◌+◌, ◌<◌, ◌≤◌, ◌^◌, true, false, length, slice_index, IfOk, IfErr};
ghost use Rattle.std.specs.Prelude.{MatchResult};
ghost use Rattle.std.specs.List.{list_all};
ghost use Rattle.std.specs.Str.Parse.{digits_value};
ghost use Rattle.mp_base.specs.Token.{is_digit};
ghost use Rattle.mp_base.specs.Refuses.{RefusesAt, IsJudged};
ghost use Rattle.mp_base.specs.declared.refusal.Family.TheVariants.{E};
ghost use Rattle.mp_base.specs.declared.refusal.Spot.TheVariants.{At};
ghost use Rattle.mp_base.specs.declared.refusal.Refusal.TheVariants as refusals;
ghost use Rattle.form_reader.specs.declared.forms.Forms as forms;
ghost use Rattle.form_reader.specs.Sound.{HasSymbols, IsSound};
ghost use Rattle.form_reader.specs.Spelling.{IsKindOf, Spells};
ghost use Rattle.form_reader.specs.Rules.{RefusesFirst, OfText};
ghost use Rattle.form_reader.specs.Text.{fills_gap, IsByte};
ghost use Rattle.form_reader.specs.Reading.{Reached, AddsItem, HasListed};
ghost use Rattle.form_reader.specs.declared.limits.TheConstants.{NESTING_LIMIT};

use crate::forms::{Forms, Kind, Node};
use crate::limits::NESTING_LIMIT;
use crate::text::{START, all_digits, behind, number, run_end, skip};
use mp_base::{Broken, Family, List, Name, Place, Refusal, Rule, Spot, is_token};
use std::alloc::Global;

/// How many lists are open, and where the outermost of them begins.
#[derive(Clone, Copy)]
struct Nesting {
    depth: u32,
    outer: Place,
}

impl Nesting {
    /// The same inside the list that begins here.
    fn inside(self, start: Place) -> Nesting
        requires { self.depth < NESTING_LIMIT }
        ensures depth { result.depth ≡ self.depth + 1 }
        ensures first { self.depth ≡ 0 → result.outer ≡ start }
        ensures later { 0 < self.depth → result.outer ≡ self.outer }
    {
        Nesting {
            depth: self.depth + 1,
            outer: if self.depth == 0 { start } else { self.outer },
        }
    }
}

/// The items of a list, and the place behind it.
#[derive(Drop)]
struct Listed {
    items: List<u32>,
    end: Place,
}

/// The refusal of rule E `number`.
fn broken(number: u16, place: Place) -> Refusal
    ensures { result ≡ refusals.Broken (record { rule = record { family = E; number = number }; spot = At place }) }
{
    Refusal::Broken(Broken {
        rule: Rule {
            family: Family::E,
            number,
        },
        spot: Spot::At(place),
    })
}

/// The kind of the run of token characters at this place.
fn kind_of(alloc: Global, run: &[u8], place: Place) -> Result<Kind, Refusal>
    ensures ok { IfOk result (IsKindOf run.now) }
    ensures err { IfErr result (λ e. RefusesAt E e (λ k at. (k ≡ 4) × (at ≡ place) × (list_all is_digit run.now ≡ true)
        × (2 ^ 64 ≤ digits_value 10 run.now))) }
{
    if all_digits(run) {
        match number(run) {
            Some(value) => Ok(Kind::Number(value)),
            None => Err(broken(4, place)),
        }
    } else {
        let name = Name::from_slice(alloc, run)?;
        Ok(Kind::Symbol(name))
    }
}

/// Reads the items of a list and its `)`, or those outside all lists, up to the end of the text.
#[cycle(list)]
fn list(
    alloc: Global,
    bytes: &[u8],
    from: Place,
    nesting: Nesting,
    nodes: &mut List<Node>,
) -> Result<Listed, Refusal>
    requires short { length bytes.now + 1 < 2 ^ 32 }
    requires reached { Reached bytes.now nesting.depth nesting.outer from }
    requires shallow { nesting.depth ≤ NESTING_LIMIT }
    requires few { length nodes.old ≤ from.offset }
    ensures found { IfOk result
        (λ r. HasListed bytes.now nesting.depth nesting.outer.offset from.offset nodes.old nodes.new r.items r.end) }
    ensures bounds { IfOk result (λ r. (from.offset ≤ r.end.offset) × (r.end.offset ≤ length bytes.now)
        × (length nodes.new ≤ r.end.offset)) }
    ensures first { IfErr result (RefusesFirst bytes.now) }
{
    let mut items = List::new(alloc);
    let mut at = from;
    'items: loop {
        let start = skip(bytes, at);
        let offset = start.offset as usize;
        if offset == bytes.len() {
            if nesting.depth == 0 {
                return Ok(Listed { items, end: start });
            }
            return Err(broken(2, nesting.outer));
        }
        if bytes[offset] == b')' {
            if nesting.depth == 0 {
                return Err(broken(3, start));
            }
            let end = behind(bytes, start);
            return Ok(Listed { items, end });
        }
        let index = nodes.len() as u32;
        at = item(alloc, bytes, start, nesting, nodes)?;
        items.push(index)?;
    }
}

/// Reads one item, and answers the place behind it.
#[cycle(list)]
fn item(
    alloc: Global,
    bytes: &[u8],
    start: Place,
    nesting: Nesting,
    nodes: &mut List<Node>,
) -> Result<Place, Refusal>
    requires short { length bytes.now + 1 < 2 ^ 32 }
    requires reached { Reached bytes.now nesting.depth nesting.outer start }
    requires shallow { nesting.depth ≤ NESTING_LIMIT }
    requires few { length nodes.old ≤ start.offset }
    requires within { start.offset < length bytes.now }
    requires stop { fills_gap false (slice_index bytes.now start.offset) ≡ false }
    requires no_close { slice_index bytes.now start.offset ≢ 41 }
    ensures found { IfOk result (λ end. AddsItem bytes.now nesting.depth start.offset nodes.old nodes.new end.offset) }
    ensures reached { IfOk result (Reached bytes.now nesting.depth nesting.outer) }
    ensures bounds { IfOk result (λ end. (start.offset < end.offset) × (length nodes.new ≤ end.offset)) }
    ensures first { IfErr result (RefusesFirst bytes.now) }
{
    let byte = bytes[start.offset as usize];
    if byte == b'(' {
        if nesting.depth == NESTING_LIMIT {
            return Err(broken(5, start));
        }
        group(alloc, bytes, start, nesting, nodes)
    } else if is_token(byte) {
        let end = run_end(bytes, start);
        let run = &bytes[start.offset as usize..end.offset as usize];
        let kind = kind_of(alloc, run, start)?;
        nodes.push(Node { place: start, kind })?;
        Ok(end)
    } else {
        Err(broken(1, start))
    }
}

/// Reads the list that begins here, and answers the place behind it.
#[cycle(list)]
fn group(
    alloc: Global,
    bytes: &[u8],
    start: Place,
    nesting: Nesting,
    nodes: &mut List<Node>,
) -> Result<Place, Refusal>
    requires short { length bytes.now + 1 < 2 ^ 32 }
    requires reached { Reached bytes.now nesting.depth nesting.outer start }
    requires shallow { nesting.depth < NESTING_LIMIT }
    requires few { length nodes.old ≤ start.offset }
    requires byte { IsByte bytes.now start.offset 40 }
    ensures found { IfOk result (λ end. AddsItem bytes.now nesting.depth start.offset nodes.old nodes.new end.offset) }
    ensures reached { IfOk result (Reached bytes.now nesting.depth nesting.outer) }
    ensures bounds { IfOk result (λ end. (start.offset < end.offset) × (length nodes.new ≤ end.offset)) }
    ensures first { IfErr result (RefusesFirst bytes.now) }
{
    let index = nodes.len() as u32;
    nodes.push(Node {
        place: start,
        kind: Kind::Group(List::new(alloc)),
    })?;
    let from = behind(bytes, start);
    let Listed { items, end } = list(alloc, bytes, from, nesting.inside(start), nodes)?;
    nodes.set(
        index,
        Node {
            place: start,
            kind: Kind::Group(items),
        },
    );
    Ok(end)
}

/// The forms that a text of less than 4 GB spells. Their nodes are in text order, and each is a root or an item once.
///
/// Refuses a text that breaks a rule: E1 (a byte that stands for nothing), E3 (a `)` that closes nothing), E4 (a number
/// over 2^64 - 1) and E5 (a list inside 64 others), whichever comes first in the text, and if none does, E2 (the
/// outermost list that is open at the end).
pub fn read_forms(alloc: Global, bytes: &[u8]) -> Result<Forms, Refusal>
    requires { length bytes.now + 1 < 2 ^ 32 }
    ensures spelled { IfOk result (Spells bytes.now) }
    ensures sound { IfOk result IsSound }
    ensures symbols { IfOk result HasSymbols }
    ensures few { IfOk result (λ f. length f.nodes ≤ length bytes.now) }
    ensures judged { IsJudged (OfText bytes.now) result }
    ensures read { (f : forms.Forms) → Spells bytes.now f
        → MatchResult result (λ r. r ≡ f) (λ e. e ≡ refusals.NoMemory) }
{
    let mut nodes = List::new(alloc);
    let nesting = Nesting {
        depth: 0,
        outer: START,
    };
    let Listed { items, end } = list(alloc, bytes, START, nesting, &mut nodes)?;
    Ok(Forms {
        nodes,
        roots: items,
        end,
    })
}
