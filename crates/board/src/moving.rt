//! What parts give a device in a clock, and how they move by what it shows.

ghost use Rattle.std.specs.Prelude.{◌≡◌, ◌<◌, ◌^◌, All, length, map, string_bytes};
ghost use Rattle.std.specs.Prelude.{if◌then◌else◌};
ghost use Rattle.std.specs.List.{find};
ghost use Rattle.board.specs.declared.link.Link.{Link as LinkValue};
ghost use Rattle.stimulus.specs.Bits.{trits_of};
ghost use Rattle.board.specs.Face.{Face};
ghost use Rattle.board.specs.Loop.{all_see, given_by, inputs_from, link_to};

use crate::link::Link;
use crate::pads::{idle_input, number, within};
use crate::part::{NamedPart, Part, drives, see};
use mp_base::{Inputs, Pad, TritOutputs};

fn link_to(links: &[Link], input: u32) -> Option<Link>
    ensures { result ≡ link_to links.now input }
{
    links.iter().copied().find(|link| link.driven == input)
}

// What an input is given.
fn given(links: &[Link], parts: &[NamedPart], clock: u32, input: u32, pad: &Pad) -> u64
    requires { All (λ l. l.part < length parts.now) links.now }
    ensures { let faces = map (λ p. let f : Face = record {
      state = state p.part;
      drives = (⟦<dyn Part as Part>⟧ p.part.vtable).driven_in;
      sees = (⟦<dyn Part as Part>⟧ p.part.vtable).after_seeing;
    } in f) parts.now in
        result ≡ given_by (link_to links.now input) faces clock pad.now }
{
    match link_to(links, input) {
        Some(link) => within(pad, drives(&parts[link.part as usize])),
        None => idle_input(pad, clock),
    }
}

/// Gives the inputs what the parts drive in a clock.
pub(crate) fn give(
    links: &[Link],
    parts: &[NamedPart],
    clock: u32,
    pads: &[Pad],
    inputs: &mut Inputs,
)
    requires parts { All (λ l. l.part < length parts.now) links.now }
    requires room { length inputs.old ≡ length pads.now }
    requires few { length pads.now < 2 ^ 32 }
    ensures { let faces = map (λ p. let f : Face = record {
      state = state p.part;
      drives = (⟦<dyn Part as Part>⟧ p.part.vtable).driven_in;
      sees = (⟦<dyn Part as Part>⟧ p.part.vtable).after_seeing;
    } in f) parts.now in
        inputs.new ≡ inputs_from links.now faces clock 0 pads.now }
{
    for input in 0..pads.len() as u32 {
        inputs.set(
            input,
            given(links, parts, clock, input, &pads[input as usize]),
        );
    }
}

// Shows the linked parts their outputs, in the order of the links.
fn show(links: &[Link], pads: &[Pad], outputs: &TritOutputs, parts: &mut Vec<NamedPart>)
    requires parts { All (λ l. l.part < length parts.old.items) links.now }
    requires outputs { All (λ l. l.seen < length pads.now) links.now }
    requires as_many { length outputs.now ≡ length pads.now }
    ensures names { map (λ p. string_bytes p.name) parts.new.items ≡ map (λ p. string_bytes p.name) parts.old.items }
    ensures faces { let faces = map (λ p. let f : Face = record {
      state = state p.part;
      drives = (⟦<dyn Part as Part>⟧ p.part.vtable).driven_in;
      sees = (⟦<dyn Part as Part>⟧ p.part.vtable).after_seeing;
    } in f) in
        faces parts.new.items ≡ all_see links.now (trits_of pads.now outputs.now) (faces parts.old.items) }
{
    for link in links {
        let seen = link.seen as usize;
        let shown = number(&pads[seen], outputs.as_slice()[seen]);
        see(&mut parts[link.part as usize], shown);
    }
}

/// The same where a clock is settled, and else nothing.
pub(crate) fn show_settled(
    settled: bool,
    links: &[Link],
    pads: &[Pad],
    outputs: &TritOutputs,
    parts: &mut Vec<NamedPart>,
)
    requires parts { All (λ l. l.part < length parts.old.items) links.now }
    requires outputs { All (λ l. l.seen < length pads.now) links.now }
    requires as_many { length outputs.now ≡ length pads.now }
    ensures names { map (λ p. string_bytes p.name) parts.new.items ≡ map (λ p. string_bytes p.name) parts.old.items }
    ensures faces { let faces = map (λ p. let f : Face = record {
      state = state p.part;
      drives = (⟦<dyn Part as Part>⟧ p.part.vtable).driven_in;
      sees = (⟦<dyn Part as Part>⟧ p.part.vtable).after_seeing;
    } in f) in
        faces parts.new.items ≡ (if settled then all_see links.now (trits_of pads.now outputs.now)
        (faces parts.old.items) else faces parts.old.items) }
{
    if settled {
        show(links, pads, outputs, parts);
    }
}
