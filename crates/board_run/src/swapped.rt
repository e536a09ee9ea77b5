//! A device on a board whose parts are exchanged.

ghost use Rattle.std.specs.Prelude.{◌≡◌, ◌<◌, All, length, map, string_bytes};
ghost use Rattle.outside.specs.Outside.{HasCause};
ghost use Rattle.board.specs.Face.{Face};
ghost use Rattle.board.specs.Loop.{Exchange as Swapped};
ghost use Rattle.board.specs.Printing.{PrintsLoopWith};
ghost use Rattle.board_run.specs.Swaps.{AreTimely};

use board::{Board, NamedPart, Part};
use outside::{Failed, Sink};
use transcript::Device;

/// A swap and its new part: when so many clocks have run, it takes the place of the part of the link with this index.
#[derive(Drop)]
pub struct Exchange {
    pub clock: u32,
    pub link: u32,
    pub fresh: Box<dyn Part>,
}

// Runs some clocks of a device that has run none. Each swap is made before its clock.
pub(crate) fn run_swapped<D: Device, O: Sink>(
    board: &mut Board<'_>,
    device: &mut D,
    parts: &mut Vec<NamedPart>,
    swaps: Vec<Exchange>,
    clocks: u32,
    out: &mut O,
) -> Result<(), Failed>
    requires pads { D.pads_of device.old ≡ board.old.wired.pads }
    requires parts { All (λ l. l.part < length parts.old.items) board.old.wired.links }
    requires unrun { board.old.done ≡ 0 }
    requires timely { let swapped = map (λ s. let e : Swapped = record {
      clock = s.clock;
      link = s.link;
      fresh = record {
        state = (⟦<dyn Part as Part>⟧ s.fresh.vtable).state s.fresh.value;
        drives = (⟦<dyn Part as Part>⟧ s.fresh.vtable).driven_in;
        sees = (⟦<dyn Part as Part>⟧ s.fresh.vtable).after_seeing;
      };
    } in e) in
        AreTimely board.old.wired.links clocks (swapped swaps.items) }
    ensures names { map (λ p. string_bytes p.name) parts.new.items ≡ map (λ p. string_bytes p.name) parts.old.items }
    ensures printed { let faces = map (λ p. let f : Face = record {
      state = (⟦<dyn Part as Part>⟧ p.part.vtable).state p.part.value;
      drives = (⟦<dyn Part as Part>⟧ p.part.vtable).driven_in;
      sees = (⟦<dyn Part as Part>⟧ p.part.vtable).after_seeing;
    } in f) in
        let swapped = map (λ s. let e : Swapped = record {
          clock = s.clock;
          link = s.link;
          fresh = record {
            state = (⟦<dyn Part as Part>⟧ s.fresh.vtable).state s.fresh.value;
            drives = (⟦<dyn Part as Part>⟧ s.fresh.vtable).driven_in;
            sees = (⟦<dyn Part as Part>⟧ s.fresh.vtable).after_seeing;
          };
        } in e) in
        PrintsLoopWith (swapped swaps.items) D.steps board.old.wired 0 board.new.done clocks device.old device.new
        (faces parts.old.items) (faces parts.new.items) (O.held out.old) (O.held out.new) result }
    ensures cause { HasCause (O.faults out.old) (O.faults out.new) result }
{
    for swap in swaps {
        let Exchange { clock, link, fresh } = swap;
        let before = clock - board.done();
        board.run(device, parts, before, out)?;
        board.swap(parts, link, fresh);
    }
    let rest = clocks - board.done();
    board.run(device, parts, rest, out)
}
