//! The masks of a source from file to file, and the circuit that they draw on a board.

ghost use Rattle.std.specs.Prelude.{◌≡◌, ⊤, ℕ, List, None, IfSome, map, string_bytes};
ghost use Rattle.outside.specs.Outside.{bytes_of};
ghost use Rattle.mp_source.specs.Source.{IsSource};
ghost use Rattle.outcome.specs.Order.{IsStrayBy};
ghost use Rattle.outcome.specs.World.{world_of, HasCauses, Leaves};
ghost use Rattle.outcome.specs.Halt.{Ends, IsQuiet, status_of};
ghost use Rattle.source_files.specs.Faults.{SourceFault};
ghost use Rattle.board.specs.Face.{Face};
ghost use Rattle.board_command.specs.Parts.{KeepsOthers, Lent};
ghost use Rattle.board_command.specs.Shown.{Boards};
ghost use Rattle.board_command.specs.Work.{work, Moves, Rests};

use crate::links::judge_plan;
use crate::playing::play;
use crate::ready::{Ready, chip_on_board};
use board::{NamedPart, Part};
use board_run::laws::{plans_run, swapped_boards_follow};
use mp_checker::Checked;
use outcome::Halt;
use outside::{Depot, Sink};
use source_files::read_source;
use std::alloc::Global;

// Judges the links and swaps for a program, stores the bytes of its chip, and runs their circuit with the linked parts.
fn show<D: Depot, O: Sink>(
    alloc: Global,
    depot: &mut D,
    out: &mut O,
    parts: &mut Vec<NamedPart>,
    checked: &Checked,
    cif: &str,
    clocks: u32,
    words: &[String],
) -> Result<(), Halt>
    ensures causes { let world = world_of D.held D.read_faults D.write_faults O.held O.faults in
        HasCauses (status_of result) ⊥ (world depot.old out.old) (world depot.new out.new) }

    // For each source that the program is of, if its file has no fault.
    ensures content { let world = world_of D.held D.read_faults D.write_faults O.held O.faults in
        let faces = map (λ p. let f : Face = record {
          state = (⟦<dyn Part as Part>⟧ p.part.vtable).state p.part.value;
          drives = (⟦<dyn Part as Part>⟧ p.part.vtable).driven_in;
          sees = (⟦<dyn Part as Part>⟧ p.part.vtable).after_seeing;
        } in f) in
        let lent : Lent = record {
          names = map (λ p. string_bytes p.name) parts.old.items;
          faces = faces parts.old.items;
        } in
        (source : List ℕ) → IfSome (D.held depot.old) (λ files. SourceFault source files None)
        → IfSome (D.held depot.old) (λ files. IsSource (bytes_of files source) checked.now.program)
        → Leaves (Boards lent source cif.now clocks (map string_bytes words.now) (faces parts.new.items) result)
        (world depot.old out.old) (world depot.new out.new) }
    ensures silent { IsQuiet result (O.held out.old) (O.held out.new) }
    ensures rests { let world = world_of D.held D.read_faults D.write_faults O.held O.faults in
        Rests (λ p. string_bytes p.name) clocks (map string_bytes words.now) parts.old.items parts.new.items result
        (world depot.old out.old) (world depot.new out.new) }
    ensures others { let faces = map (λ p. let f : Face = record {
      state = (⟦<dyn Part as Part>⟧ p.part.vtable).state p.part.value;
      drives = (⟦<dyn Part as Part>⟧ p.part.vtable).driven_in;
      sees = (⟦<dyn Part as Part>⟧ p.part.vtable).after_seeing;
    } in f) in
        let lent : Lent = record {
          names = map (λ p. string_bytes p.name) parts.old.items;
          faces = faces parts.old.items;
        } in
        KeepsOthers lent clocks (map string_bytes words.now) (faces parts.new.items) }
{
    let plan = judge_plan(alloc, words, parts, checked, clocks)?;
    plans_run();
    let Ready {
        chip,
        circuit,
        taken,
    } = chip_on_board(alloc, checked, &plan)?;
    checked.unbroken();
    swapped_boards_follow();
    let swaps = plan.swaps.as_slice();
    play(depot, out, parts, circuit, swaps, taken, &chip, cif, clocks)
}

/// Writes the CIF file of a chip for the source, and prints the transcript of the circuit that its bytes draw, for some
/// clocks from unknown values, with the linked parts, and the size line at its end. A swap puts another part in the place
/// of a linked one, before its clock. When printing begins the parts that swaps put in leave the list. One that isn't
/// placed at the end is dropped.
///
/// # Errors
///
/// A read fault, the first broken rule of the source and then of the words, want of memory, or a write fault of the
/// depot or the sink.
pub fn board<D: Depot, O: Sink>(
    alloc: Global,
    depot: &mut D,
    out: &mut O,
    parts: &mut Vec<NamedPart>,
    source: &str,
    cif: &str,
    clocks: u32,
    words: &[String],
) -> Result<(), Halt>
    // No condition; but by it a caller in another crate knows that no part is made here.
    requires { ⊤ }
    ensures causes { let world = world_of D.held D.read_faults D.write_faults O.held O.faults in
        let lent : Lent = record {
          names = map (λ p. string_bytes p.name) parts.old.items;
          faces = map (λ p. let f : Face = record {
            state = (⟦<dyn Part as Part>⟧ p.part.vtable).state p.part.value;
            drives = (⟦<dyn Part as Part>⟧ p.part.vtable).driven_in;
            sees = (⟦<dyn Part as Part>⟧ p.part.vtable).after_seeing;
          } in f) parts.old.items;
        } in
        HasCauses (status_of result)
        (IsStrayBy (work lent source.now cif.now clocks (map string_bytes words.now)).First (D.held depot.new))
        (world depot.old out.old) (world depot.new out.new) }

    // The parts are left as their loop leaves them.
    ensures content { let world = world_of D.held D.read_faults D.write_faults O.held O.faults in
        let faces = map (λ p. let f : Face = record {
          state = (⟦<dyn Part as Part>⟧ p.part.vtable).state p.part.value;
          drives = (⟦<dyn Part as Part>⟧ p.part.vtable).driven_in;
          sees = (⟦<dyn Part as Part>⟧ p.part.vtable).after_seeing;
        } in f) in
        let lent : Lent = record {
          names = map (λ p. string_bytes p.name) parts.old.items;
          faces = faces parts.old.items;
        } in
        Leaves (λ before after old new printed.
        Ends (work lent source.now cif.now clocks (map string_bytes words.now)) result before after old new printed
        × Moves lent (bytes_of old source.now) (map string_bytes words.now) clocks (faces parts.new.items) result before
        after printed) (world depot.old out.old) (world depot.new out.new) }
    ensures silent { IsQuiet result (O.held out.old) (O.held out.new) }

    // Whatever the files are, the list is as it was until printing has begun. Then the parts that swaps put in are out
    // of it, and the others keep their names and their order.
    ensures rests { let world = world_of D.held D.read_faults D.write_faults O.held O.faults in
        Rests (λ p. string_bytes p.name) clocks (map string_bytes words.now) parts.old.items parts.new.items result
        (world depot.old out.old) (world depot.new out.new) }

    // Whatever is told, the parts that no link or swap names are as they were.
    ensures others { let faces = map (λ p. let f : Face = record {
      state = (⟦<dyn Part as Part>⟧ p.part.vtable).state p.part.value;
      drives = (⟦<dyn Part as Part>⟧ p.part.vtable).driven_in;
      sees = (⟦<dyn Part as Part>⟧ p.part.vtable).after_seeing;
    } in f) in
        let lent : Lent = record {
          names = map (λ p. string_bytes p.name) parts.old.items;
          faces = faces parts.old.items;
        } in
        KeepsOthers lent clocks (map string_bytes words.now) (faces parts.new.items) }
{
    let checked = read_source(alloc, depot, source)?;
    let result = show(alloc, depot, out, parts, &checked, cif, clocks, words);
    drop(checked);
    result
}
