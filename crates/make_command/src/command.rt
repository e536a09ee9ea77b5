//! The masks of a made source, and what is told of their run.

ghost use Rattle.std.specs.Prelude.{◌≡◌, ◌≤◌, length, IfOk};
ghost use Rattle.stimulus.specs.declared.limits.TheConstants.{PAD_LIMIT};
ghost use Rattle.mp_program.specs.Pads.{ArePadsOf};
ghost use Rattle.program_maker.specs.Texts.{source_text};
ghost use Rattle.stimulus.specs.Inputs.{inputs_of};
ghost use Rattle.settled_sum.specs.Laws.{SettlesBehindFirst};
ghost use Rattle.compile_command.specs.Compiled.{IsCompiled};
ghost use Rattle.compile_laws.specs.Laws.{IsSmallChipOf};
ghost use Rattle.outcome.specs.Order.{IsStrayBy};
ghost use Rattle.outcome.specs.World.{world_of, HasCauses, Leaves};
ghost use Rattle.outcome.specs.Halt.{Ends, IsQuiet, status_of};
ghost use Rattle.make_command.specs.Made.{IsMadeRun, TellsRun};
ghost use Rattle.make_command.specs.Work.{work, IsUnrefused};

use chip_text::chip_text;
use made_ready::{Ready, make_ready};
use made_run::summary;
use mask_net::drawn_network;
use mp_base::NoMemory;
use mp_checker::weight;
use outcome::Halt;
use outside::{Depot, Sink, store, write_all};
use replay_run::laws::{chips_run, replays_follow};
use settled_sum::laws::sums_settle;
use std::alloc::Global;

/// The bytes of a file, and a text.
#[derive(Drop)]
struct Output {
    chip: Vec<u8>,
    text: Vec<u8>,
}

// What is told of the run of a chip of a made program.
fn summary_of(alloc: Global, ready: &Ready, chip: &[u8]) -> Result<Vec<u8>, NoMemory>
    requires chip { IsSmallChipOf ready.now.checked.program chip.now }
    requires padded { ArePadsOf ready.now.checked.program ready.now.stimulus.pads }
    requires few_inputs { length ready.now.stimulus.pads.inputs ≤ PAD_LIMIT }
    requires one_output { length ready.now.stimulus.pads.outputs ≡ 1 }
    requires clocks { length ready.now.stimulus.clocks ≡ 65 }
    requires settled { SettlesBehindFirst ready.now.checked.program (inputs_of ready.now.stimulus) }
    ensures { IfOk result (λ text. TellsRun ready.now.checked.program ready.now.stimulus chip.now text.items) }
{
    chips_run();
    replays_follow();
    sums_settle(&ready.checked);
    let network = drawn_network(alloc, chip)?;
    summary(alloc, weight(&ready.checked), network, &ready.stimulus)
}

// The chip of a number's source, and what is told of its run: all the memory that a number takes.
fn made(alloc: Global, seed: u64) -> Result<Output, NoMemory>
    ensures compiled { IfOk result (λ made. IsCompiled (source_text seed) made.chip.items) }
    ensures run { IfOk result (λ made. IsMadeRun seed made.chip.items made.text.items) }
{
    let ready = make_ready(alloc, seed)?;
    let chip = chip_text(alloc, &ready.checked)?;
    let text = summary_of(alloc, &ready, &chip)?;
    Ok(Output { chip, text })
}

/// Writes the CIF file of a chip for the source that is made of a number, runs the circuit that its bytes draw along
/// the stimulus that is made of it, from unknown values, and prints the source's weight, the number of clocks, the sum
/// of the output in the settled ones, and the size line. Reads nothing.
///
/// # Errors
///
/// Want of memory, or a write fault of the depot or the sink.
pub fn make<D: Depot, O: Sink>(
    alloc: Global,
    depot: &mut D,
    out: &mut O,
    seed: u64,
    cif: &str,
) -> Result<(), Halt>
    ensures causes { let world = world_of D.held D.read_faults D.write_faults O.held O.faults in
        HasCauses (status_of result) (IsStrayBy (work seed cif.now).First (D.held depot.new))
        (world depot.old out.old) (world depot.new out.new) }
    ensures content { let world = world_of D.held D.read_faults D.write_faults O.held O.faults in
        Leaves (Ends (work seed cif.now) result) (world depot.old out.old) (world depot.new out.new) }
    ensures silent { IsQuiet result (O.held out.old) (O.held out.new) }
    ensures unrefused { IsUnrefused result }
{
    let made = made(alloc, seed)?;
    store(depot, cif, &made.chip)?;
    write_all(out, &made.text)?;
    Ok(())
}
