//! The top call.

ghost use Rattle.std.specs.Prelude.{◌≡◌, Some, map, string_bytes};
ghost use Rattle.command_line.specs.Command.{command_of, seen};
ghost use Rattle.outcome.specs.World.{world_of, HasCauses, Leaves, SparesFiles, IsSilent};
ghost use Rattle.outcome.specs.Halt.{IsQuiet, status_of};
ghost use Rattle.board.specs.Face.{Face};
ghost use Rattle.board_command.specs.Parts.{Lent};
ghost use Rattle.silicon.specs.Faults.{target_of, target_for, IsStrayFor};
ghost use Rattle.silicon.specs.Parts.{KeepsOthers, KeepsParts, Rests};
ghost use Rattle.silicon.specs.Run.{IsForWords, Did, Ending, EndsMade, TellsUsage};

use board::{NamedPart, Part};
use board_command::board;
use command_line::{Command, command_of};
use compile_command::compile;
use make_command::make;
use net_command::net;
use outcome::{Halt, Status, refuse, say};
use outside::{Depot, Sink};
use replay_command::replay;
use rules_command::rules;
use sim_command::sim;
use stats_command::stats;
use std::alloc::{AllocError, Global};
use trace_command::trace;

// Does the work of a command.
fn perform<D: Depot, O: Sink>(
    alloc: Global,
    depot: &mut D,
    out: &mut O,
    parts: &mut Vec<NamedPart>,
    command: Command<'_>,
) -> Result<(), Halt>
    ensures causes { let world = world_of D.held D.read_faults D.write_faults O.held O.faults in
        let faces = map (λ p. let f : Face = record {
          state = (⟦<dyn Part as Part>⟧ p.part.vtable).state p.part.value;
          drives = (⟦<dyn Part as Part>⟧ p.part.vtable).driven_in;
          sees = (⟦<dyn Part as Part>⟧ p.part.vtable).after_seeing;
        } in f) in
        let lent : Lent = record {
          names = map (λ p. string_bytes p.name) parts.old.items;
          faces = faces parts.old.items;
        } in
        HasCauses (status_of result) (IsStrayFor lent (Some (seen command.entry)) (D.held depot.new))
        (world depot.old out.old) (world depot.new out.new) }
    ensures content { let world = world_of D.held D.read_faults D.write_faults O.held O.faults in
        let faces = map (λ p. let f : Face = record {
          state = (⟦<dyn Part as Part>⟧ p.part.vtable).state p.part.value;
          drives = (⟦<dyn Part as Part>⟧ p.part.vtable).driven_in;
          sees = (⟦<dyn Part as Part>⟧ p.part.vtable).after_seeing;
        } in f) in
        let lent : Lent = record {
          names = map (λ p. string_bytes p.name) parts.old.items;
          faces = faces parts.old.items;
        } in
        Leaves (Ending lent (faces parts.new.items) (seen command.entry) result)
        (world depot.old out.old) (world depot.new out.new) }
    ensures silent { IsQuiet result (O.held out.old) (O.held out.new) }
    ensures spares { SparesFiles (target_of (seen command.entry)) (D.held depot.old) (D.held depot.new)
        (D.write_faults depot.old) (D.write_faults depot.new) }
    ensures rests { let world = world_of D.held D.read_faults D.write_faults O.held O.faults in
        Rests (λ p. string_bytes p.name) (seen command.entry) result (world depot.old out.old) (world depot.new out.new)
        parts.old.items parts.new.items }
    ensures made { EndsMade (Some (seen command.entry)) (status_of result) }
    ensures others { let faces = map (λ p. let f : Face = record {
      state = (⟦<dyn Part as Part>⟧ p.part.vtable).state p.part.value;
      drives = (⟦<dyn Part as Part>⟧ p.part.vtable).driven_in;
      sees = (⟦<dyn Part as Part>⟧ p.part.vtable).after_seeing;
    } in f) in
        let lent : Lent = record {
          names = map (λ p. string_bytes p.name) parts.old.items;
          faces = faces parts.old.items;
        } in
        KeepsOthers lent (faces parts.new.items) (Some (seen command.entry)) }
{
    match command {
        Command::Trace(source, stimulus) => trace(alloc, depot, out, source, stimulus),
        Command::Compile(source, cif) => compile(alloc, depot, out, source, cif),
        Command::Replay(source, stimulus, cif) => {
            replay(alloc, depot, out, source, stimulus, cif)
        }
        Command::Sim(cif, stimulus) => sim(alloc, depot, out, cif, stimulus),
        Command::Net(cif) => net(alloc, depot, out, cif),
        Command::Stats(source) => stats(alloc, depot, out, source),
        Command::Board(source, cif, clocks, links) => {
            board(alloc, depot, out, parts, source, cif, clocks, links)
        }
        Command::Make(number, cif) => make(alloc, depot, out, number, cif),
        Command::Rules(cif) => rules(alloc, depot, out, cif),
    }
}

// Does the work of a command, and tells a refusal.
fn run_command<D: Depot, O: Sink>(
    alloc: Global,
    depot: &mut D,
    out: &mut O,
    parts: &mut Vec<NamedPart>,
    command: Command<'_>,
) -> Status
    ensures words { IsForWords (Some (seen command.entry)) result }
    ensures causes { let world = world_of D.held D.read_faults D.write_faults O.held O.faults in
        let faces = map (λ p. let f : Face = record {
          state = (⟦<dyn Part as Part>⟧ p.part.vtable).state p.part.value;
          drives = (⟦<dyn Part as Part>⟧ p.part.vtable).driven_in;
          sees = (⟦<dyn Part as Part>⟧ p.part.vtable).after_seeing;
        } in f) in
        let lent : Lent = record {
          names = map (λ p. string_bytes p.name) parts.old.items;
          faces = faces parts.old.items;
        } in
        HasCauses result (IsStrayFor lent (Some (seen command.entry)) (D.held depot.new))
        (world depot.old out.old) (world depot.new out.new) }
    ensures content { let world = world_of D.held D.read_faults D.write_faults O.held O.faults in
        let faces = map (λ p. let f : Face = record {
          state = (⟦<dyn Part as Part>⟧ p.part.vtable).state p.part.value;
          drives = (⟦<dyn Part as Part>⟧ p.part.vtable).driven_in;
          sees = (⟦<dyn Part as Part>⟧ p.part.vtable).after_seeing;
        } in f) in
        let lent : Lent = record {
          names = map (λ p. string_bytes p.name) parts.old.items;
          faces = faces parts.old.items;
        } in
        Leaves (Did lent (faces parts.new.items) (Some (seen command.entry)) result)
        (world depot.old out.old) (world depot.new out.new) }
    ensures silent { IsSilent result (O.held out.old) (O.held out.new) }
    ensures spares { SparesFiles (target_of (seen command.entry)) (D.held depot.old) (D.held depot.new)
        (D.write_faults depot.old) (D.write_faults depot.new) }
    ensures parts { let world = world_of D.held D.read_faults D.write_faults O.held O.faults in
        KeepsParts (λ p. string_bytes p.name) (Some (seen command.entry)) result (world depot.old out.old)
        (world depot.new out.new) parts.old.items parts.new.items }
    ensures made { EndsMade (Some (seen command.entry)) result }
    ensures others { let faces = map (λ p. let f : Face = record {
      state = (⟦<dyn Part as Part>⟧ p.part.vtable).state p.part.value;
      drives = (⟦<dyn Part as Part>⟧ p.part.vtable).driven_in;
      sees = (⟦<dyn Part as Part>⟧ p.part.vtable).after_seeing;
    } in f) in
        let lent : Lent = record {
          names = map (λ p. string_bytes p.name) parts.old.items;
          faces = faces parts.old.items;
        } in
        KeepsOthers lent (faces parts.new.items) (Some (seen command.entry)) }
{
    match perform(alloc, depot, out, parts, command) {
        Ok(()) => Status::Done,
        Err(Halt::Refused(broken)) => refuse(alloc, out, &broken),
        Err(Halt::ReadFault) => Status::ReadFault,
        Err(Halt::WriteFault) => Status::WriteFault,
        Err(Halt::NoMemory) => Status::NoMemory,
    }
}

const USAGE: &str =
    "usage: macpitts trace SRC STIM or compile SRC CIF or replay SRC STIM CIF or sim CIF STIM or net CIF or stats SRC or board SRC CIF N LINK.. or make N CIF or rules CIF\n";

/// Does what the words say, with the files, the output and the parts that are lent.
pub fn run<D: Depot, O: Sink>(
    alloc: Global,
    words: &Vec<String>,
    depot: &mut D,
    out: &mut O,
    parts: &mut Vec<NamedPart>,
) -> Status
    // The words are in no form exactly where this is said.
    ensures words { IsForWords (command_of words.now.items) result }

    // No fault is told without its cause, and none is passed over.
    ensures causes { let world = world_of D.held D.read_faults D.write_faults O.held O.faults in
        let faces = map (λ p. let f : Face = record {
          state = (⟦<dyn Part as Part>⟧ p.part.vtable).state p.part.value;
          drives = (⟦<dyn Part as Part>⟧ p.part.vtable).driven_in;
          sees = (⟦<dyn Part as Part>⟧ p.part.vtable).after_seeing;
        } in f) in
        let lent : Lent = record {
          names = map (λ p. string_bytes p.name) parts.old.items;
          faces = faces parts.old.items;
        } in
        HasCauses result (IsStrayFor lent (command_of words.now.items) (D.held depot.new))
        (world depot.old out.old) (world depot.new out.new) }

    // What is printed and stored, and how the parts move by it, where the objects tell it.
    ensures content { let world = world_of D.held D.read_faults D.write_faults O.held O.faults in
        let faces = map (λ p. let f : Face = record {
          state = (⟦<dyn Part as Part>⟧ p.part.vtable).state p.part.value;
          drives = (⟦<dyn Part as Part>⟧ p.part.vtable).driven_in;
          sees = (⟦<dyn Part as Part>⟧ p.part.vtable).after_seeing;
        } in f) in
        let lent : Lent = record {
          names = map (λ p. string_bytes p.name) parts.old.items;
          faces = faces parts.old.items;
        } in
        Leaves (Did lent (faces parts.new.items) (command_of words.now.items) result)
        (world depot.old out.old) (world depot.new out.new) }

    // A fault of a read, or want of memory, comes before anything is printed.
    ensures silent { IsSilent result (O.held out.old) (O.held out.new) }

    // Without a target no file is written, and no write fails.
    ensures spares { SparesFiles (target_for (command_of words.now.items)) (D.held depot.old) (D.held depot.new)
        (D.write_faults depot.old) (D.write_faults depot.new) }

    // The usage line, where the sink tells it.
    ensures usage { TellsUsage (command_of words.now.items) result (O.held out.old) (O.held out.new) }

    // Whatever the files are, the list of parts stays as it was, but of a board that has begun to print. Then the parts
    // that its swaps put in are out of it, and the others keep their names.
    ensures parts { let world = world_of D.held D.read_faults D.write_faults O.held O.faults in
        KeepsParts (λ p. string_bytes p.name) (command_of words.now.items) result (world depot.old out.old)
        (world depot.new out.new) parts.old.items parts.new.items }

    // What is made of a number is never refused, and nothing is read for it.
    ensures made { EndsMade (command_of words.now.items) result }

    // Whatever is told, a board leaves the parts that its words don't name, and every other command leaves all.
    ensures others { let faces = map (λ p. let f : Face = record {
      state = (⟦<dyn Part as Part>⟧ p.part.vtable).state p.part.value;
      drives = (⟦<dyn Part as Part>⟧ p.part.vtable).driven_in;
      sees = (⟦<dyn Part as Part>⟧ p.part.vtable).after_seeing;
    } in f) in
        let lent : Lent = record {
          names = map (λ p. string_bytes p.name) parts.old.items;
          faces = faces parts.old.items;
        } in
        KeepsOthers lent (faces parts.new.items) (command_of words.now.items) }
{
    match command_of(alloc, words) {
        Ok(Some(command)) => run_command(alloc, depot, out, parts, command),
        Ok(None) => say(out, USAGE.as_bytes(), Status::Usage),
        Err(AllocError) => Status::NoMemory,
    }
}
