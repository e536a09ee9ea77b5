//! The circuit of a chip on a board.

ghost use Rattle.std.specs.Prelude.{◌≡◌, ◌<◌, ◌^◌, All, length, map, IfOk, string_bytes};
ghost use Rattle.outside.specs.Outside.{Gains, HasCause};
ghost use Rattle.outside.specs.Piece.{TakesAll};
ghost use Rattle.mp_base.specs.declared.value.Trit.TheVariants.{X};
ghost use Rattle.switch_net.specs.Values.{value_at};
ghost use Rattle.switch_net.specs.declared.network.Network.{Network};
ghost use Rattle.switch_net.specs.Breaks.{HasPads};
ghost use Rattle.mask_net.specs.SizeLine.{last_line, size_text};
ghost use Rattle.board.specs.Boarding.{AreWires};
ghost use Rattle.board.specs.Face.{Face};
ghost use Rattle.board.specs.Loop.{Exchange as Swapped, Wired};
ghost use Rattle.board_run.specs.Boarded.{PrintsBoardWith};
ghost use Rattle.board_run.specs.Standing.{IsReady};
ghost use Rattle.board_run.specs.Swaps.{AreTimely};

use crate::swapped::{Exchange, run_swapped};
use board::laws::inputs_fit;
use board::{Board, Link, NamedPart, Part};
use board_laws::laws::swapped_circuits_loop;
use clock_run::Circuit;
use mask_net::size_text;
use mp_base::{List, NoMemory, Pads, Refusal};
use outside::{Failed, Sink};
use replay_run::write_last_line;
use std::alloc::Global;
use std::marker::Model;
use switch_net::Network;
use switch_net::laws::circuits_run;

/// A circuit on a board that has run no clock, and all the memory that its run takes.
#[derive(Drop)]
pub struct BoardRun<'a> {
    circuit: Circuit<'a>,
    board: Board<'a>,
    size: Vec<u8>,
}

impl<'a> Model for BoardRun<'a> {
    ghost use Rattle.board_run.specs.Standing.{Standing, IsReady};

    ghost Value = { Standing };

    ghost view = { λ r. record { network = r.circuit.network; wired = r.board.wired } };

    ghost invariant = { λ r. IsReady r.circuit r.board r.size.items };
}

// The circuit of a network of which it is known that it has these pads.
fn circuit<'a>(alloc: Global, network: Network, pads: &'a Pads) -> Result<Circuit<'a>, NoMemory>
    requires has_pads { HasPads network pads.now }
    ensures network { IfOk result (λ c. c.network ≡ network) }
    ensures pads { IfOk result (λ c. c.pads ≡ pads.now) }
    ensures unknown { IfOk result (λ c. value_at c.values ≡ (λ node. X)) }
{
    match Circuit::open(alloc, network, pads) {
        Ok(circuit) => Ok(circuit),
        Err(Refusal::NoMemory) => Err(NoMemory),
        Err(Refusal::Broken(_)) => unreachable!(),
    }
}

// Prints the size line of a circuit whose run has ended.
fn write_end<O: Sink>(out: &mut O, size: &[u8], circuit: &Circuit<'_>) -> Result<(), Failed>
    ensures taken { (net : Network) → size.now ≡ size_text net → circuit.now.network ≡ net
        → TakesAll Gains (O.held out.old) (O.held out.new) (last_line net (value_at circuit.now.values)) result }
    ensures cause { HasCause (O.faults out.old) (O.faults out.new) result }
{
    write_last_line(out, size, circuit.values())
}

// Runs a circuit that has run no clock, with swaps, and prints all of it.
fn run_clocks<O: Sink>(
    circuit: &mut Circuit<'_>,
    board: &mut Board<'_>,
    size: &[u8],
    parts: &mut Vec<NamedPart>,
    swaps: Vec<Exchange>,
    clocks: u32,
    out: &mut O,
) -> Result<(), Failed>
    requires ready { IsReady circuit.old board.old size.now }
    requires parts { All (λ l. l.part < length parts.old.items) board.old.wired.links }
    requires timely { let swapped = map (λ s. let e : Swapped = record {
      clock = s.clock;
      link = s.link;
      fresh = record {
        state = (⟦<dyn Part as Part>⟧ s.fresh.vtable).state s.fresh.value;
        drives = (⟦<dyn Part as Part>⟧ s.fresh.vtable).driven_in;
        sees = (⟦<dyn Part as Part>⟧ s.fresh.vtable).after_seeing;
      };
    } in e) in
        AreTimely board.old.wired.links clocks (swapped swaps.items) }
    ensures names { map (λ p. string_bytes p.name) parts.new.items ≡ map (λ p. string_bytes p.name) parts.old.items }
    ensures printed { let faces = map (λ p. let f : Face = record {
      state = (⟦<dyn Part as Part>⟧ p.part.vtable).state p.part.value;
      drives = (⟦<dyn Part as Part>⟧ p.part.vtable).driven_in;
      sees = (⟦<dyn Part as Part>⟧ p.part.vtable).after_seeing;
    } in f) in
        let swapped = map (λ s. let e : Swapped = record {
          clock = s.clock;
          link = s.link;
          fresh = record {
            state = (⟦<dyn Part as Part>⟧ s.fresh.vtable).state s.fresh.value;
            drives = (⟦<dyn Part as Part>⟧ s.fresh.vtable).driven_in;
            sees = (⟦<dyn Part as Part>⟧ s.fresh.vtable).after_seeing;
          };
        } in e) in
        PrintsBoardWith (swapped swaps.items) circuit.old.network board.old.wired clocks
        (faces parts.old.items) (faces parts.new.items) (O.held out.old) (O.held out.new) result }
    ensures cause { HasCause (O.faults out.old) (O.faults out.new) result }
{
    circuits_run();
    swapped_circuits_loop();
    inputs_fit();
    run_swapped(board, circuit, parts, swaps, clocks, out)?;
    write_end(out, size, circuit)
}

impl<'a> BoardRun<'a> {
    /// The circuit of a network that has these pads, all of whose nodes are X, on a board with these links, and whether
    /// the circuit stores anything.
    ///
    /// # Errors
    ///
    /// Want of memory.
    pub fn open(
        alloc: Global,
        network: Network,
        pads: &'a Pads,
        links: List<Link>,
        stores: bool,
    ) -> Result<BoardRun<'a>, NoMemory>
        requires few { length pads.now.inputs < 2 ^ 32 }
        requires wires { AreWires pads.now links }
        requires has_pads { HasPads network pads.now }
        ensures network { IfOk result (λ r. r.network ≡ network) }
        ensures wired { IfOk result (λ r. let w : Wired = record { pads = pads.now; links = links; stores = stores } in
            r.wired ≡ w) }
    {
        let size = size_text(alloc, &network)?;
        let circuit = circuit(alloc, network, pads)?;
        let board = Board::open(alloc, pads, links, stores)?;
        Ok(BoardRun {
            circuit,
            board,
            size,
        })
    }

    /// Runs the circuit for some clocks with the parts of its links, and prints its transcript, every clock in full,
    /// and its size line. Each swap is made before its clock, and a part that isn't placed at the end is dropped. Takes
    /// no memory.
    ///
    /// # Errors
    ///
    /// `Failed` where the sink failed: then a first part was printed, but not all, and the parts are as after the
    /// clocks whose lines were printed whole, with the swaps made by then.
    pub fn run<O: Sink>(
        self,
        parts: &mut Vec<NamedPart>,
        swaps: Vec<Exchange>,
        clocks: u32,
        out: &mut O,
    ) -> Result<(), Failed>
        requires parts { All (λ l. l.part < length parts.old.items) self.wired.links }
        requires timely { let swapped = map (λ s. let e : Swapped = record {
          clock = s.clock;
          link = s.link;
          fresh = record {
            state = (⟦<dyn Part as Part>⟧ s.fresh.vtable).state s.fresh.value;
            drives = (⟦<dyn Part as Part>⟧ s.fresh.vtable).driven_in;
            sees = (⟦<dyn Part as Part>⟧ s.fresh.vtable).after_seeing;
          };
        } in e) in
            AreTimely self.wired.links clocks (swapped swaps.items) }
        ensures names { map (λ p. string_bytes p.name) parts.new.items
            ≡ map (λ p. string_bytes p.name) parts.old.items }
        ensures printed { let faces = map (λ p. let f : Face = record {
          state = (⟦<dyn Part as Part>⟧ p.part.vtable).state p.part.value;
          drives = (⟦<dyn Part as Part>⟧ p.part.vtable).driven_in;
          sees = (⟦<dyn Part as Part>⟧ p.part.vtable).after_seeing;
        } in f) in
            let swapped = map (λ s. let e : Swapped = record {
              clock = s.clock;
              link = s.link;
              fresh = record {
                state = (⟦<dyn Part as Part>⟧ s.fresh.vtable).state s.fresh.value;
                drives = (⟦<dyn Part as Part>⟧ s.fresh.vtable).driven_in;
                sees = (⟦<dyn Part as Part>⟧ s.fresh.vtable).after_seeing;
              };
            } in e) in
            PrintsBoardWith (swapped swaps.items) self.entry.network self.entry.wired clocks
            (faces parts.old.items) (faces parts.new.items) (O.held out.old) (O.held out.new) result }
        ensures cause { HasCause (O.faults out.old) (O.faults out.new) result }
    {
        let BoardRun {
            mut circuit,
            mut board,
            size,
        } = self;
        run_clocks(&mut circuit, &mut board, &size, parts, swaps, clocks, out)
    }
}
