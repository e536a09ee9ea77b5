//! The chip's file, and the run of its circuit.

ghost use Rattle.std.specs.Prelude.{◌≡◌, ◌≢◌, ◌⊎◌, ◌<◌, ◌≤◌, [], All, AllPairs, Some, length, map, string_bytes};
ghost use Rattle.std.specs.Vec.{vec_capacity};
ghost use Rattle.outside.specs.Outside.{HasCause};
ghost use Rattle.switch_net.specs.Breaks.{HasPads};
ghost use Rattle.outcome.specs.World.{world_of, HasCauses, Leaves};
ghost use Rattle.outcome.specs.Halt.{Ends, IsQuiet, status_of};
ghost use Rattle.stages.specs.Stages.{second};
ghost use Rattle.board.specs.declared.plan.Swap.{Swap as Planned};
ghost use Rattle.board.specs.Face.{Face};
ghost use Rattle.board_run.specs.Boarded.{PrintsBoardWith};
ghost use Rattle.board_run.specs.Left.{exchange_of, left_of};
ghost use Rattle.board_run.specs.Swaps.{AreTimely};
ghost use Rattle.board_command.specs.Parts.{AreKeptBut, AreLeft};
ghost use Rattle.board_command.specs.Work.{Plays, WhereBegun};

use board::{NamedPart, Part, Swap};
use board_run::laws::swapped_boards_run;
use board_run::{BoardRun, Exchange, take_out};
use outcome::Halt;
use outside::{Depot, Failed, Sink, store};

// Takes the parts that swaps put in out of the list, and runs a circuit with those that are left.
fn run_left<O: Sink>(
    circuit: BoardRun<'_>,
    parts: &mut Vec<NamedPart>,
    swaps: &[Swap],
    mut taken: Vec<Exchange>,
    clocks: u32,
    out: &mut O,
) -> Result<(), Failed>
    requires fresh { All (λ (s : Planned). s.fresh < length parts.old.items) swaps.now }
    requires apart { AllPairs (λ (s t : Planned). s.fresh ≢ t.fresh) swaps.now }
    requires none { taken.items ≡ [] }
    requires room { length swaps.now ≤ vec_capacity taken }
    requires parts { All (λ l. l.part < length (left_of swaps.now (map (λ p. string_bytes p.name) parts.old.items)))
        circuit.wired.links }
    requires timely { let faces = map (λ p. let f : Face = record {
      state = (⟦<dyn Part as Part>⟧ p.part.vtable).state p.part.value;
      drives = (⟦<dyn Part as Part>⟧ p.part.vtable).driven_in;
      sees = (⟦<dyn Part as Part>⟧ p.part.vtable).after_seeing;
    } in f) in
        AreTimely circuit.wired.links clocks (map (exchange_of (faces parts.old.items)) swaps.now) }
    ensures names { map (λ p. string_bytes p.name) parts.new.items
        ≡ left_of swaps.now (map (λ p. string_bytes p.name) parts.old.items) }
    ensures printed { let faces = map (λ p. let f : Face = record {
      state = (⟦<dyn Part as Part>⟧ p.part.vtable).state p.part.value;
      drives = (⟦<dyn Part as Part>⟧ p.part.vtable).driven_in;
      sees = (⟦<dyn Part as Part>⟧ p.part.vtable).after_seeing;
    } in f) in
        PrintsBoardWith (map (exchange_of (faces parts.old.items)) swaps.now) circuit.entry.network circuit.entry.wired
        clocks (left_of swaps.now (faces parts.old.items)) (faces parts.new.items)
        (O.held out.old) (O.held out.new) result }
    ensures cause { HasCause (O.faults out.old) (O.faults out.new) result }
{
    take_out(parts, swaps, &mut taken);
    circuit.run(parts, taken, clocks, out)
}

/// Stores the bytes of a chip, and runs their circuit with the parts of its links, and with swaps.
pub(crate) fn play<'a, D: Depot, O: Sink>(
    depot: &mut D,
    out: &mut O,
    parts: &mut Vec<NamedPart>,
    circuit: BoardRun<'a>,
    swaps: &[Swap],
    taken: Vec<Exchange>,
    chip: &[u8],
    cif: &str,
    clocks: u32,
) -> Result<(), Halt>
    requires has_pads { HasPads circuit.network circuit.wired.pads }
    requires fresh { All (λ (s : Planned). s.fresh < length parts.old.items) swaps.now }
    requires apart { AllPairs (λ (s t : Planned). s.fresh ≢ t.fresh) swaps.now }
    requires none { taken.items ≡ [] }
    requires room { length swaps.now ≤ vec_capacity taken }
    requires parts { All (λ l. l.part < length (left_of swaps.now (map (λ p. string_bytes p.name) parts.old.items)))
        circuit.wired.links }
    requires timely { let faces = map (λ p. let f : Face = record {
      state = (⟦<dyn Part as Part>⟧ p.part.vtable).state p.part.value;
      drives = (⟦<dyn Part as Part>⟧ p.part.vtable).driven_in;
      sees = (⟦<dyn Part as Part>⟧ p.part.vtable).after_seeing;
    } in f) in
        AreTimely circuit.wired.links clocks (map (exchange_of (faces parts.old.items)) swaps.now) }
    ensures causes { let world = world_of D.held D.read_faults D.write_faults O.held O.faults in
        HasCauses (status_of result) ⊥ (world depot.old out.old) (world depot.new out.new) }
    ensures content { let world = world_of D.held D.read_faults D.write_faults O.held O.faults in
        let faces = map (λ p. let f : Face = record {
          state = (⟦<dyn Part as Part>⟧ p.part.vtable).state p.part.value;
          drives = (⟦<dyn Part as Part>⟧ p.part.vtable).driven_in;
          sees = (⟦<dyn Part as Part>⟧ p.part.vtable).after_seeing;
        } in f) in
        let swapped = map (exchange_of (faces parts.old.items)) swaps.now in
        let others = left_of swaps.now (faces parts.old.items) in
        Leaves (λ before after old new printed. Ends (second (Some cif.now) (Plays chip.now swapped
        circuit.entry.network circuit.entry.wired clocks others)) result before after old new printed
        × WhereBegun result before after (AreLeft swapped circuit.entry.network circuit.entry.wired clocks others
        printed (faces parts.new.items)) (faces parts.new.items ≡ faces parts.old.items))
        (world depot.old out.old) (world depot.new out.new) }
    ensures silent { IsQuiet result (O.held out.old) (O.held out.new) }
    ensures rests { let world = world_of D.held D.read_faults D.write_faults O.held O.faults in
        WhereBegun result (world depot.old out.old) (world depot.new out.new)
        (map (λ p. string_bytes p.name) parts.new.items
        ≡ left_of swaps.now (map (λ p. string_bytes p.name) parts.old.items)) (parts.new.items ≡ parts.old.items) }
    ensures others { let faces = map (λ p. let f : Face = record {
      state = (⟦<dyn Part as Part>⟧ p.part.vtable).state p.part.value;
      drives = (⟦<dyn Part as Part>⟧ p.part.vtable).driven_in;
      sees = (⟦<dyn Part as Part>⟧ p.part.vtable).after_seeing;
    } in f) in
        (faces parts.new.items ≡ faces parts.old.items) ⊎ AreKeptBut circuit.entry.wired.links
        (left_of swaps.now (faces parts.old.items)) (faces parts.new.items) }
{
    swapped_boards_run();
    match store(depot, cif, chip) {
        Ok(()) => Ok(run_left(circuit, parts, swaps, taken, clocks, out)?),
        Err(Failed) => {
            drop(circuit);
            Err(Halt::WriteFault)
        }
    }
}
