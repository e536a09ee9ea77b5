//! The path that was made.

ghost use Rattle.std.specs.Prelude.{◌≡◌, ◌≢◌, ◌<◌, ◌≤◌, ℕ, true, false, IfOk, length};
ghost use Rattle.nor_net.specs.declared.net.NetId as net_id;
ghost use Rattle.rtl_form.specs.Cost.{cost};
ghost use Rattle.rtl_form.specs.Sound.{IsSound};
ghost use Rattle.rtl_form.specs.declared.rtl.CellKind.TheVariants.{Output};
ghost use Rattle.control_nor.specs.Lowering.{Stands};
ghost use Rattle.path_form.specs.Shape.{IsPath};
ghost use Rattle.datapath_making.specs.WellMade.{IsWellMade};
ghost use Rattle.datapath_finish.specs.Finishing.{AreInputNets, AreOutputNets, IsCellNet, IsComplete};
ghost use Rattle.datapath_finish.specs.Finishing.{AreEnds, IsFinished, IsOrdered, IsOutputPut, IsPadNet, IsPathOf};
ghost use Rattle.mp_base.specs.declared.limits.TheConstants.{WEIGHT_LIMIT};

use column_turns::Turns;
use datapath_making::{Making, entry};
use mp_base::{List, NoMemory, Pad, Pads};
use nor_net::NetId;
use path_form::{DataPath, Piece};
use path_order::{laws, order_of};
use rtl_form::{Cell, CellKind, Rtl};
use std::alloc::Global;

// The net of an input pad.
fn pad_net(making: &Making, index: usize, pad: &Pad) -> NetId
    requires bit { pad.now.width ≡ 0 → (id : net_id.NetId) × Stands making.now.names.inputs index id }
    requires word { pad.now.width ≢ 0 → (id : net_id.NetId) × Stands making.now.pads index id }
    ensures { IsPadNet making.now index pad.now result }
{
    if pad.width == 0 {
        entry(making.names.inputs.as_slice(), index)
    } else {
        entry(making.pads.as_slice(), index)
    }
}

// The nets of all input pads.
fn input_nets(alloc: Global, rtl: &Rtl, making: &Making) -> Result<List<NetId>, NoMemory>
    requires { IsComplete rtl.now making.now }
    ensures { IfOk result (AreInputNets rtl.now making.now (length (rtl.now.pads).inputs)) }
{
    let mut inputs = List::new(alloc);
    for pad in rtl.pads.inputs.as_slice() {
        let net = pad_net(making, inputs.len(), pad);
        inputs.push(net)?;
    }
    Ok(inputs)
}

// The net of a cell.
fn cell_net(making: &Making, index: usize, cell: Cell) -> NetId
    requires word { cell.word ≡ true → (id : net_id.NetId) × Stands making.now.cell_words index id }
    requires bit { cell.word ≡ false → (id : net_id.NetId) × Stands making.now.names.cells index id }
    ensures { IsCellNet making.now index cell result }
{
    if cell.word {
        entry(making.cell_words.as_slice(), index)
    } else {
        entry(making.names.cells.as_slice(), index)
    }
}

// Puts the net of a cell at its output pad, if it has one.
fn put_output(outputs: &mut List<NetId>, making: &Making, index: usize, cell: Cell)
    requires pad { (k : ℕ) → cell.kind ≡ Output k → k < length outputs.old }
    requires word { cell.word ≡ true → (id : net_id.NetId) × Stands making.now.cell_words index id }
    requires bit { cell.word ≡ false → (id : net_id.NetId) × Stands making.now.names.cells index id }
    ensures { IsOutputPut making.now index cell cell.kind outputs.old outputs.new }
{
    if let CellKind::Output(pad) = cell.kind {
        outputs.set(pad, cell_net(making, index, cell));
    }
}

// As many nets.
fn some_nets(alloc: Global, count: usize) -> Result<List<NetId>, NoMemory>
    ensures { IfOk result (λ ids. length ids ≡ count) }
{
    Ok(List::from_vec(vec![in alloc; NetId(0); count]?))
}

// The nets of all output pads.
fn output_nets(alloc: Global, rtl: &Rtl, making: &Making) -> Result<List<NetId>, NoMemory>
    requires sound { IsSound rtl.now }
    requires complete { IsComplete rtl.now making.now }
    ensures { IfOk result (AreOutputNets rtl.now making.now (length rtl.now.cells)) }
{
    let mut outputs = some_nets(alloc, rtl.pads.outputs.len())?;
    for index in 0..rtl.cells.len() {
        let cell = rtl.cells.as_slice()[index];
        put_output(&mut outputs, making, index, cell);
    }
    Ok(outputs)
}

// The pads of transfers.
fn pads_of(alloc: Global, rtl: &Rtl) -> Result<Pads, NoMemory>
    ensures { IfOk result (λ pads. pads ≡ rtl.now.pads) }
{
    let pads = rtl.pads.copy(alloc)?;
    Ok(pads)
}

// Marks the end, and gives the order along the marks.
fn ordered(alloc: Global, making: &mut Making) -> Result<List<Piece>, NoMemory>
    requires { IsWellMade making.old }
    ensures { IfOk result (IsOrdered making.old making.new) }
{
    let control_nets = making.control.len();
    let _slice_nets = making.slices.net.len();
    making.mark(control_nets)?;
    let order = order_of(alloc, making.width, making.marks.as_slice())?;
    Ok(order)
}

// What a path has beside its nets.
#[derive(Drop)]
struct Ends {
    pads: Pads,
    inputs: List<NetId>,
    outputs: List<NetId>,
    order: List<Piece>,
}

// The ends of a path in the making, which is marked at its end.
fn ends_of(alloc: Global, rtl: &Rtl, making: &mut Making) -> Result<Ends, NoMemory>
    requires sound { IsSound rtl.now }
    requires light { cost rtl.now ≤ WEIGHT_LIMIT }
    requires complete { IsComplete rtl.now making.old }
    ensures { IfOk result (AreEnds rtl.now making.old making.new) }
{
    let inputs = input_nets(alloc, rtl, making)?;
    let outputs = output_nets(alloc, rtl, making)?;
    let pads = pads_of(alloc, rtl)?;
    let order = ordered(alloc, making)?;
    laws::orders_are_whole();
    Ok(Ends {
        pads,
        inputs,
        outputs,
        order,
    })
}

// The path of these nets, with these ends.
fn path_of(alloc: Global, making: Making, ends: Ends) -> DataPath
    requires { IsPath making.width making.control making.slices making.casts making.lifts ends.pads ends.inputs
        ends.outputs
        ends.order }
    ensures { IsPathOf making ends result }
{
    let Making {
        width,
        control,
        slices,
        casts,
        lifts,
        ..
    } = making;
    let Ends {
        pads,
        inputs,
        outputs,
        order,
    } = ends;
    DataPath {
        width,
        control,
        slices,
        casts,
        lifts,
        pads,
        inputs,
        outputs,
        order,
        control_turns: Turns::none(alloc),
        slice_turns: Turns::none(alloc),
    }
}

/// The path, with an order along the marks, and the nets of the pads.
///
/// # Errors
///
/// `NoMemory`.
pub fn finish(alloc: Global, rtl: &Rtl, making: Making) -> Result<DataPath, NoMemory>
    requires sound { IsSound rtl.now }
    requires light { cost rtl.now ≤ WEIGHT_LIMIT }
    requires complete { IsComplete rtl.now making }
    ensures { IfOk result (IsFinished rtl.now making) }
{
    let mut making = making;
    let ends = ends_of(alloc, rtl, &mut making)?;
    Ok(path_of(alloc, making, ends))
}
