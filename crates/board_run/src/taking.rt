//! Parts that are taken out of a list for their swaps.

ghost use Rattle.std.specs.Prelude.{◌≡◌, ◌≢◌, ◌<◌, ◌≤◌, [], All, AllPairs, IfOk, count_by, length, map, nat_lt};
ghost use Rattle.std.specs.Prelude.{string_bytes};
ghost use Rattle.std.specs.Vec.{vec_capacity};
ghost use Rattle.board.specs.declared.plan.Swap.{Swap as Planned};
ghost use Rattle.board.specs.Face.{Face};
ghost use Rattle.board.specs.Loop.{Exchange as Swapped};
ghost use Rattle.board_run.specs.Left.{exchange_of, left_of, links_left, place_left};

use crate::swapped::Exchange;
use board::{Link, NamedPart, Part, Plan, Swap};
use mp_base::{List, NoMemory};
use std::alloc::Global;

// How many of these swaps put in an entry before this one.
fn puts_before(swaps: &[Swap], place: u32) -> usize
    ensures { result ≡ count_by (λ s. nat_lt s.fresh place) swaps.now }
{
    swaps.iter().filter(|swap| swap.fresh < place).count()
}

// Where an entry stands in the list that these swaps leave.
fn place_left(swaps: &[Swap], place: u32) -> u32
    requires apart { AllPairs (λ (s t : Planned). s.fresh ≢ t.fresh) swaps.now }
    ensures { result ≡ place_left swaps.now place }
{
    (place as usize - puts_before(swaps, place)) as u32
}

/// The links of a plan, to the list that is left by its swaps.
///
/// # Errors
///
/// Want of memory.
pub fn links_left(alloc: Global, plan: &Plan) -> Result<List<Link>, NoMemory>
    requires apart { AllPairs (λ (s t : Planned). s.fresh ≢ t.fresh) plan.now.swaps }
    ensures { IfOk result (λ links. links ≡ links_left plan.now) }
{
    let mut links = List::new(alloc);
    for link in plan.links.as_slice() {
        links.push(Link {
            part: place_left(plan.swaps.as_slice(), link.part),
            seen: link.seen,
            driven: link.driven,
        })?;
    }
    Ok(links)
}

/// Takes the parts that swaps put in out of a list, each with its swap, in the order of the swaps. Takes no memory.
pub fn take_out(parts: &mut Vec<NamedPart>, swaps: &[Swap], taken: &mut Vec<Exchange>)
    requires fresh { All (λ (s : Planned). s.fresh < length parts.old.items) swaps.now }
    requires apart { AllPairs (λ (s t : Planned). s.fresh ≢ t.fresh) swaps.now }
    requires none { taken.old.items ≡ [] }
    requires room { length swaps.now ≤ vec_capacity taken.old }
    ensures names { map (λ p. string_bytes p.name) parts.new.items
        ≡ left_of swaps.now (map (λ p. string_bytes p.name) parts.old.items) }
    ensures faces { let faces = map (λ p. let f : Face = record {
      state = (⟦<dyn Part as Part>⟧ p.part.vtable).state p.part.value;
      drives = (⟦<dyn Part as Part>⟧ p.part.vtable).driven_in;
      sees = (⟦<dyn Part as Part>⟧ p.part.vtable).after_seeing;
    } in f) in
        faces parts.new.items ≡ left_of swaps.now (faces parts.old.items) }
    ensures taken { let faces = map (λ p. let f : Face = record {
      state = (⟦<dyn Part as Part>⟧ p.part.vtable).state p.part.value;
      drives = (⟦<dyn Part as Part>⟧ p.part.vtable).driven_in;
      sees = (⟦<dyn Part as Part>⟧ p.part.vtable).after_seeing;
    } in f) in
        let swapped = map (λ s. let e : Swapped = record {
          clock = s.clock;
          link = s.link;
          fresh = record {
            state = (⟦<dyn Part as Part>⟧ s.fresh.vtable).state s.fresh.value;
            drives = (⟦<dyn Part as Part>⟧ s.fresh.vtable).driven_in;
            sees = (⟦<dyn Part as Part>⟧ s.fresh.vtable).after_seeing;
          };
        } in e) in
        swapped taken.new.items ≡ map (exchange_of (faces parts.old.items)) swaps.now }
{
    for i in 0..swaps.len() {
        let swap = swaps[i];
        let place = place_left(&swaps[..i], swap.fresh);
        let NamedPart { name: _, part } = parts.remove(place as usize);
        taken.push_reserved(Exchange {
            clock: swap.clock,
            link: swap.link,
            fresh: part,
        });
    }
}
