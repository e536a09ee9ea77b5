//! A run of the program: the words that it is given, the system's files and an output, and its exit status.
#![tactic(auto)]

ghost use Rattle.std.specs.Prelude.{◌≡◌, IfOk, MatchResult, None, [], ◌∷◌, ◌++◌, drop, map, string_bytes};
ghost use Rattle.std.specs.Vec.Iter.{into_iter_items};
ghost use Rattle.command_line.specs.Command.{command_of};
ghost use Rattle.outcome.specs.World.{world_of};
ghost use Rattle.board.specs.Face.{Face};
ghost use Rattle.silicon.specs.Run.{IsForWords};
ghost use Rattle.system_run.specs.Parts.{RunsWithParts};
ghost use Rattle.outcome.specs.declared.status.Status.TheVariants.{WriteFault};
ghost use Rattle.system_run.specs.Statuses.{exit_status};
ghost use Rattle.system_run.specs.Words.{command_given};

use board_parts::{Counter, Echo, Memory, Shifter};
use outside::{Depot, Failed, Sink};
use silicon::{NamedPart, Part, Status, run};
use std::alloc::{AllocError, Global};
use std::env::Args;
use std::io::{self, ErrorKind, Write};
use std::rt::Files;
use system_outside::{FileDepot, OutSink};

// The words that are left.
fn words_left(alloc: Global, mut args: Args) -> Result<Vec<String>, AllocError>
    ensures { IfOk result (λ words. words.items ≡ into_iter_items args) }
{
    let mut words = Vec::new(alloc);
    while let Some(word) = args.next() {
        words.push(word)?;
    }
    Ok(words)
}

// The words after the program's name. Words that are no text are in no form, and nor are no words: `run` answers both
// with the usage line.
fn words_of(alloc: Global, args: io::Result<Args>) -> Result<Vec<String>, AllocError>
    ensures { IfOk result (λ words. MatchResult args (λ given. words.items ≡ drop 1 (into_iter_items given))
        (λ _. words.items ≡ [])) }
{
    match args {
        Ok(mut args) => {
            let _name = args.next();
            words_left(alloc, args)
        }
        Err(error) if error.kind() == ErrorKind::OutOfMemory => Err(AllocError),
        Err(_) => Ok(Vec::new(alloc)),
    }
}

// One more part, of this name.
fn push_part(
    alloc: Global,
    parts: &mut Vec<NamedPart>,
    name: &str,
    part: Box<dyn Part>,
) -> Result<(), AllocError>
    ensures names { IfOk result (λ _. map (λ p. string_bytes p.name) parts.new.items
        ≡ map (λ p. string_bytes p.name) parts.old.items ++ name.now ∷ []) }
    ensures faces { let faces = map (λ p. let f : Face = record {
      state = (⟦<dyn Part as Part>⟧ p.part.vtable).state p.part.value;
      drives = (⟦<dyn Part as Part>⟧ p.part.vtable).driven_in;
      sees = (⟦<dyn Part as Part>⟧ p.part.vtable).after_seeing;
    } in f) in
        let face : Face = record {
          state = (⟦<dyn Part as Part>⟧ part.vtable).state part.value;
          drives = (⟦<dyn Part as Part>⟧ part.vtable).driven_in;
          sees = (⟦<dyn Part as Part>⟧ part.vtable).after_seeing;
        } in
        IfOk result (λ _. faces parts.new.items ≡ faces parts.old.items ++ face ∷ []) }
{
    let name = String::from_str(alloc, name)?;
    parts.push(NamedPart { name, part })?;
    Ok(())
}

// Does what the words say, with the parts that a chip may be joined to, if they can be made; else nothing is done.
fn run_with_made<D: Depot, O: Sink>(
    alloc: Global,
    words: &Vec<String>,
    depot: &mut D,
    out: &mut O,
) -> Result<Status, AllocError>
    ensures { let world = world_of D.held D.read_faults D.write_faults O.held O.faults in
        MatchResult result
        (λ status. RunsWithParts (command_of words.now.items) status
        (world depot.old out.old) (world depot.new out.new))
        (λ _. world depot.new out.new ≡ world depot.old out.old) }
{
    let mut parts = Vec::new(alloc);
    push_part(
        alloc,
        &mut parts,
        "counter",
        Box::new(alloc, Counter::new())?,
    )?;
    push_part(
        alloc,
        &mut parts,
        "shifter",
        Box::new(alloc, Shifter::new())?,
    )?;
    push_part(alloc, &mut parts, "echo", Box::new(alloc, Echo::new())?)?;
    push_part(alloc, &mut parts, "memory", Box::new(alloc, Memory::new())?)?;
    Ok(run(alloc, words, depot, out, &mut parts))
}

/// Does what the words say, with a counter, a shifter, an echo and a memory as the parts that a chip may be joined to.
/// Parts that can't be had for want of memory end as any want of memory.
pub fn run_with_parts<D: Depot, O: Sink>(
    alloc: Global,
    words: &Vec<String>,
    depot: &mut D,
    out: &mut O,
) -> Status
    ensures { let world = world_of D.held D.read_faults D.write_faults O.held O.faults in
        RunsWithParts (command_of words.now.items) result (world depot.old out.old) (world depot.new out.new) }
{
    match run_with_made(alloc, words, depot, out) {
        Ok(status) => status,
        Err(AllocError) => Status::NoMemory,
    }
}

/// Does what the words behind the program's name say, with the parts that a chip may be joined to. Words that can't be
/// had for want of memory end as any want of memory.
pub fn run_given<D: Depot, O: Sink>(
    alloc: Global,
    args: io::Result<Args>,
    depot: &mut D,
    out: &mut O,
) -> Status
    ensures { let world = world_of D.held D.read_faults D.write_faults O.held O.faults in
        RunsWithParts (command_given (λ given. command_of (drop 1 (into_iter_items given))) args) result
        (world depot.old out.old) (world depot.new out.new) }
{
    match words_of(alloc, args) {
        Ok(words) => run_with_parts(alloc, &words, depot, out),
        Err(AllocError) => Status::NoMemory,
    }
}

/// How a run ends whose output was flushed behind it: as it ended, or with a write fault if that failed.
pub fn ended(status: Status, flushed: Result<(), Failed>) -> Status
    ensures { MatchResult flushed (λ _. result ≡ status) (λ _. result ≡ WriteFault) }
{
    match flushed {
        Ok(()) => status,
        Err(Failed) => Status::WriteFault,
    }
}

/// `run_given` with these files and this output, which is then flushed. What the system's files and output hold isn't
/// told, so this says only when words are in no form.
pub fn perform<R: Files, W: Write + Drop>(
    alloc: Global,
    files: &R,
    output: W,
    args: io::Result<Args>,
) -> Status
    ensures { MatchResult args (λ given. IsForWords (command_of (drop 1 (into_iter_items given))) result)
        (λ _. IsForWords None result) }
{
    let mut depot = FileDepot::new(files);
    let mut out = OutSink::new(output);
    let status = run_given(alloc, args, &mut depot, &mut out);
    ended(status, out.flush())
}

/// The exit status that tells how a run ended.
pub fn exit_status(status: Status) -> u8
    ensures { result ≡ exit_status status }
{
    match status {
        Status::Done => 0,
        Status::Refused => 1,
        Status::Usage => 2,
        Status::ReadFault => 3,
        Status::WriteFault => 4,
        Status::NoMemory => 5,
    }
}
