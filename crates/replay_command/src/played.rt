//! The circuit of a chip's own bytes, after the file that holds them.

ghost use Rattle.std.specs.Prelude.{◌≡◌, ◌≤◌, Some, length, IfOk};
ghost use Rattle.mp_program.specs.Pads.{ArePadsOf};
ghost use Rattle.stimulus.specs.declared.limits.TheConstants.{CLOCK_LIMIT, PAD_LIMIT};
ghost use Rattle.switch_net.specs.Breaks.{HasPads};
ghost use Rattle.mask_net.specs.Masks.{IsNetOf};
ghost use Rattle.outcome.specs.World.{world_of, HasCauses, Leaves};
ghost use Rattle.outcome.specs.Halt.{Ends, IsQuiet, status_of};
ghost use Rattle.stages.specs.Stages.{second};
ghost use Rattle.replay_command.specs.Played.{IsAsked, Plays, PlaysChipOf};

use chip_text::chip_text;
use mask_net::drawn_network;
use mp_base::NoMemory;
use outcome::Halt;
use outside::{Depot, Failed, Sink, store};
use replay_run::Replay;
use replay_run::laws::chips_run;
use sim_run::laws::transcripts_exist;
use source_files::Prepared;
use std::alloc::Global;

// The circuit that the bytes of the chip draw, with all the memory of its run.
fn circuit_of<'a>(alloc: Global, made: &'a Prepared, chip: &[u8]) -> Result<Replay<'a>, NoMemory>
    requires { IsAsked made.now.checked.program made.now.stimulus chip.now }
    ensures drawn { IfOk result (λ replay. IsNetOf chip.now replay.network) }
    ensures given { IfOk result (λ replay. replay.given ≡ made.now.stimulus) }
    ensures has_pads { IfOk result (λ replay. HasPads replay.network made.now.stimulus.pads) }
{
    chips_run();
    let network = drawn_network(alloc, chip)?;
    Replay::open(alloc, network, &made.stimulus)
}

// Stores the chip, and then prints the replay of the circuit.
fn show<D: Depot, O: Sink>(
    depot: &mut D,
    out: &mut O,
    cif: &str,
    chip: &[u8],
    circuit: Replay<'_>,
) -> Result<(), Halt>
    requires drawn { IsNetOf chip.now circuit.network }
    requires has_pads { HasPads circuit.network circuit.given.pads }
    ensures causes { let world = world_of D.held D.read_faults D.write_faults O.held O.faults in
        HasCauses (status_of result) ⊥ (world depot.old out.old) (world depot.new out.new) }
    ensures content { let world = world_of D.held D.read_faults D.write_faults O.held O.faults in
        Leaves (Ends (second (Some cif.now) (Plays chip.now circuit.entry.given)) result)
        (world depot.old out.old) (world depot.new out.new) }
    ensures silent { IsQuiet result (O.held out.old) (O.held out.new) }
{
    transcripts_exist();
    match store(depot, cif, chip) {
        Ok(()) => Ok(circuit.run(out)?),
        Err(Failed) => {
            drop(circuit);
            Err(Halt::WriteFault)
        }
    }
}

/// Makes the bytes of the program's chip, takes all the memory of the circuit that they draw, stores the bytes, and
/// then prints the replay of the circuit along the stimulus.
pub(crate) fn play<D: Depot, O: Sink>(
    alloc: Global,
    depot: &mut D,
    out: &mut O,
    cif: &str,
    made: &Prepared,
) -> Result<(), Halt>
    requires padded { ArePadsOf made.now.checked.program made.now.stimulus.pads }
    requires few_inputs { length made.now.stimulus.pads.inputs ≤ PAD_LIMIT }
    requires few_clocks { length made.now.stimulus.clocks ≤ CLOCK_LIMIT }
    ensures causes { let world = world_of D.held D.read_faults D.write_faults O.held O.faults in
        HasCauses (status_of result) ⊥ (world depot.old out.old) (world depot.new out.new) }
    ensures content { let world = world_of D.held D.read_faults D.write_faults O.held O.faults in
        Leaves (Ends (second (Some cif.now) (PlaysChipOf made.now.checked.program made.now.stimulus)) result)
        (world depot.old out.old) (world depot.new out.new) }
    ensures silent { IsQuiet result (O.held out.old) (O.held out.new) }
{
    let chip = chip_text(alloc, &made.checked)?;
    let circuit = circuit_of(alloc, made, &chip)?;
    show(depot, out, cif, &chip, circuit)
}
