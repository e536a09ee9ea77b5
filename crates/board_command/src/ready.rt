//! The chip of a program, and its circuit on a board, with all the memory of its run.

ghost use Rattle.std.specs.Prelude.{◌≡◌, ◌≢◌, ◌<◌, ◌≤◌, ◌^◌, [], AllPairs, length, IfOk};
ghost use Rattle.std.specs.Vec.{vec_capacity};
ghost use Rattle.mp_program.specs.Trace.{stores};
ghost use Rattle.mask_net.specs.Masks.{IsNetOf};
ghost use Rattle.switch_net.specs.Breaks.{HasPads};
ghost use Rattle.compile_laws.specs.Laws.{IsSmallChipOf};
ghost use Rattle.chip_text.specs.Texts.{IsPlainChipOf};
ghost use Rattle.board.specs.declared.plan.Swap.{Swap};
ghost use Rattle.board.specs.Boarding.{AreWires};
ghost use Rattle.board.specs.Loop.{Wired};
ghost use Rattle.board_run.specs.Left.{links_left};

use board::{Link, Plan};
use board_run::{BoardRun, Exchange, links_left};
use chip_text::chip_text;
use mask_net::drawn_network;
use mp_base::{List, NoMemory};
use mp_checker::Checked;
use replay_run::laws::chips_run;
use std::alloc::Global;

/// The bytes of a chip, the circuit that they draw on a board, and room for the parts that its swaps put in.
#[derive(Drop)]
pub(crate) struct Ready<'a> {
    pub chip: Vec<u8>,
    pub circuit: BoardRun<'a>,
    pub taken: Vec<Exchange>,
}

// The circuit that the bytes of the chip draw, on a board with these links, with all the memory of its run.
fn circuit_of<'a>(
    alloc: Global,
    chip: &[u8],
    checked: &'a Checked,
    links: List<Link>,
) -> Result<BoardRun<'a>, NoMemory>
    requires chip { IsSmallChipOf checked.now.program chip.now }
    requires few { length checked.now.pads.inputs < 2 ^ 32 }
    requires wires { AreWires checked.now.pads links }
    ensures drawn { IfOk result (λ run. IsNetOf chip.now run.network) }
    ensures wired { IfOk result (λ run. let w : Wired = record {
      pads = checked.now.pads;
      links = links;
      stores = stores checked.now.program;
    } in run.wired ≡ w) }
    ensures has_pads { IfOk result (λ run. HasPads run.network checked.now.pads) }
{
    chips_run();
    let pads = checked.pads();
    let stores = checked.stores();
    let network = drawn_network(alloc, chip)?;
    BoardRun::open(alloc, network, pads, links, stores)
}

/// The chip of a checked program, and its circuit on a board with the links of a plan to the parts that are left.
pub(crate) fn chip_on_board<'a>(
    alloc: Global,
    checked: &'a Checked,
    plan: &Plan,
) -> Result<Ready<'a>, NoMemory>
    requires few { length checked.now.pads.inputs < 2 ^ 32 }
    requires wires { AreWires checked.now.pads (links_left plan.now) }
    requires apart { AllPairs (λ (s t : Swap). s.fresh ≢ t.fresh) plan.now.swaps }
    ensures chip { IfOk result (λ r. IsPlainChipOf checked.now.program r.chip.items) }
    ensures drawn { IfOk result (λ r. IsNetOf r.chip.items r.circuit.network) }
    ensures wired { IfOk result (λ r. let w : Wired = record {
      pads = checked.now.pads;
      links = links_left plan.now;
      stores = stores checked.now.program;
    } in r.circuit.wired ≡ w) }
    ensures has_pads { IfOk result (λ r. HasPads r.circuit.network checked.now.pads) }
    ensures none { IfOk result (λ r. r.taken.items ≡ []) }
    ensures room { IfOk result (λ r. length plan.now.swaps ≤ vec_capacity r.taken) }
{
    let chip = chip_text(alloc, checked)?;
    let links = links_left(alloc, plan)?;
    let circuit = circuit_of(alloc, &chip, checked, links)?;
    let taken = Vec::with_capacity(alloc, plan.swaps.len())?;
    Ok(Ready {
        chip,
        circuit,
        taken,
    })
}
