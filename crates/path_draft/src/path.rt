//! Paths by drafts.

ghost use Rattle.std.specs.Prelude.{◌≡◌, ◌<◌, IfOk, IfSome, IsTrue, length, slice_get, sum_by};
ghost use Rattle.path_form.specs.Sizes.{active};
ghost use Rattle.nor_net.specs.Shape.{IsFed, fan_in, gate_inputs};
ghost use Rattle.path_form.specs.Shape.{IsPath};
ghost use Rattle.path_draft.specs.Likeness.{IsLike, IsNoLarger, NetIsNoLarger};
ghost use Rattle.path_draft.specs.Whole.{ControlFits, IsBodyOf, IsWhole, JointsFit, SlicesFit};

use crate::draft::Draft;
use crate::ends::{control_ends, entries_of, slice_ends};
use crate::flags::{are_inputs, are_pads};
use crate::joints::{casts_join, chains_join, lifts_join, rise_to};
use crate::nets::net_of;
use column_turns::Turns;
use mp_base::{List, NoMemory, Pads};
use nor_net::{Net, NetId, NetKind};
use organelles::SliceNet;
use path_form::{Cast, DataPath, Lift, Piece};
use path_order::{Mark, laws, order_of};
use std::alloc::Global;

// The nets of a draft, and what joins them.
#[derive(Drop)]
struct Body {
    control: Net,
    slices: SliceNet,
    casts: List<Cast>,
    lifts: List<Lift>,
    inputs: List<NetId>,
    outputs: List<NetId>,
    marks: List<Mark>,
}

// How many inputs a net has as a gate.
fn fan_in(net: &Net, id: NetId) -> u32
    requires { id.0 < length net.now }
    ensures { IfSome (slice_get net.now id.0) (λ part. result ≡ fan_in part) }
{
    let _count = net.len();
    match net.kind(id) {
        NetKind::Gate => net.gate_inputs(id).len() as u32,
        _ => 0,
    }
}

// How many inputs gates have.
fn gate_inputs(net: &Net) -> u32
    ensures { result ≡ gate_inputs net.now }
{
    let mut count = 0;
    for id in 0..net.len() {
        count += fan_in(net, NetId(id));
    }
    count
}

// How many gates and latches there are.
fn active(net: &Net) -> u32
    ensures { result ≡ sum_by active net.now }
{
    net.len() - net.inputs()
}

// Whether a net has no more of anything than another.
fn is_net_no_larger(old: &Net, new: &Net) -> bool
    ensures { IsTrue result → NetIsNoLarger old.now new.now }
{
    new.len() <= old.len() && gate_inputs(new) <= gate_inputs(old) && active(new) <= active(old)
}

// Whether the body has no more of anything than the path.
fn is_no_larger(like: &DataPath, body: &Body) -> bool
    ensures { IsTrue result → IsNoLarger like.now body.now.control body.now.slices body.now.casts body.now.lifts }
{
    is_net_no_larger(&like.control, &body.control)
        && is_net_no_larger(&like.slices.net, &body.slices.net)
        && body.slices.chains.len() <= like.slices.chains.len()
        && body.slices.programs.len() <= like.slices.programs.len()
        && body.casts.len() <= like.casts.len()
        && body.lifts.len() <= like.lifts.len()
}

// Whether what joins the nets fits them and the marks.
fn joints_fit(width: u8, body: &Body) -> bool
    ensures { IsTrue result → JointsFit width body.now }
{
    let marks = body.marks.as_slice();
    let end = Mark {
        slices: body.slices.net.len(),
        control: body.control.len(),
    };
    rise_to(end, marks)
        && chains_join(body.slices.chains.as_slice(), end.slices, marks)
        && casts_join(body.casts.as_slice(), end.control, marks)
        && lifts_join(body.lifts.as_slice(), width, end.slices, marks)
}

// Whether the control's pads and inputs are as they must be.
fn control_fits(alloc: Global, pads: &Pads, body: &Body) -> Result<bool, NoMemory>
    requires inputs { length body.now.inputs ≡ length pads.now.inputs }
    requires outputs { length body.now.outputs ≡ length pads.now.outputs }
    ensures { IfOk result (λ fits. IsTrue fits → ControlFits pads.now body.now) }
{
    let inputs = entries_of(alloc, false, pads.inputs.as_slice(), body.inputs.as_slice())?;
    let outputs = entries_of(
        alloc,
        false,
        pads.outputs.as_slice(),
        body.outputs.as_slice(),
    )?;
    let ends = control_ends(alloc, inputs.as_slice(), body.lifts.as_slice())?;
    let whole = are_inputs(alloc, &body.control, ends.as_slice())?;
    Ok(whole && are_pads(alloc, &body.control, inputs.as_slice(), outputs.as_slice())?)
}

// The same of a slice.
fn slices_fit(alloc: Global, pads: &Pads, body: &Body) -> Result<bool, NoMemory>
    requires inputs { length body.now.inputs ≡ length pads.now.inputs }
    requires outputs { length body.now.outputs ≡ length pads.now.outputs }
    ensures { IfOk result (λ fits. IsTrue fits → SlicesFit pads.now body.now) }
{
    let inputs = entries_of(alloc, true, pads.inputs.as_slice(), body.inputs.as_slice())?;
    let outputs = entries_of(
        alloc,
        true,
        pads.outputs.as_slice(),
        body.outputs.as_slice(),
    )?;
    let ends = slice_ends(
        alloc,
        inputs.as_slice(),
        body.slices.chains.as_slice(),
        body.slices.programs.as_slice(),
        body.casts.as_slice(),
    )?;
    let whole = are_inputs(alloc, &body.slices.net, ends.as_slice())?;
    Ok(
        whole
            && are_pads(
                alloc,
                &body.slices.net,
                inputs.as_slice(),
                outputs.as_slice(),
            )?,
    )
}

// Whether a path with these pads may be made of the body.
fn is_whole(alloc: Global, like: &DataPath, body: &Body) -> Result<bool, NoMemory>
    ensures { IfOk result (λ is. IsTrue is → IsWhole like.now body.now) }
{
    let pads = &like.pads;
    let counts = body.inputs.len() == pads.inputs.len() && body.outputs.len() == pads.outputs.len();
    Ok(
        counts
            && is_no_larger(like, body)
            && joints_fit(like.width, body)
            && control_fits(alloc, pads, body)?
            && slices_fit(alloc, pads, body)?,
    )
}

// The body of a draft, if its nets may stand so.
fn body_of(alloc: Global, draft: Draft) -> Result<Option<Body>, NoMemory>
    ensures { IfOk result (λ body. IfSome body (λ body. IsFed body.control × IsFed body.slices.net)) }
{
    let control = net_of(alloc, draft.control.as_slice())?;
    let net = net_of(alloc, draft.slices.as_slice())?;
    let Draft {
        chains,
        programs,
        casts,
        lifts,
        inputs,
        outputs,
        marks,
        ..
    } = draft;
    match (control, net) {
        (Some(control), Some(net)) => Ok(Some(Body {
            control,
            slices: SliceNet {
                net,
                chains,
                programs,
            },
            casts,
            lifts,
            inputs,
            outputs,
            marks,
        })),
        _ => Ok(None),
    }
}

// The path of a body, in this order.
fn made_of(alloc: Global, width: u8, body: Body, pads: Pads, order: List<Piece>) -> DataPath
    requires { IsPath width body.control body.slices body.casts body.lifts pads body.inputs body.outputs order }
    ensures { IsBodyOf width body pads result }
{
    let Body {
        control,
        slices,
        casts,
        lifts,
        inputs,
        outputs,
        ..
    } = body;
    DataPath {
        width,
        control,
        slices,
        casts,
        lifts,
        pads,
        inputs,
        outputs,
        order,
        control_turns: Turns::none(alloc),
        slice_turns: Turns::none(alloc),
    }
}

// The same pads once more.
fn pads_of(alloc: Global, path: &DataPath) -> Result<Pads, NoMemory>
    ensures { IfOk result (λ pads. pads ≡ path.now.pads) }
{
    let pads = path.pads.copy(alloc)?;
    Ok(pads)
}

// The path of a body, if it is one.
fn whole_path(alloc: Global, like: &DataPath, body: Body) -> Result<Option<DataPath>, NoMemory>
    requires { IsFed body.control × IsFed body.slices.net }
    ensures { IfOk result (λ path. IfSome path (IsLike like.now)) }
{
    if !is_whole(alloc, like, &body)? {
        return Ok(None);
    }
    let pads = pads_of(alloc, like)?;
    let order = order_of(alloc, like.width, body.marks.as_slice())?;
    laws::orders_are_whole();
    let _control = body.control.len();
    let _slices = body.slices.net.len();
    Ok(Some(made_of(alloc, like.width, body, pads, order)))
}

/// The path of a draft, with the pads and the word length of another path, if it is a path and has no more of anything
/// than that one.
///
/// # Errors
///
/// `NoMemory`.
pub fn path_of(alloc: Global, like: &DataPath, draft: Draft) -> Result<Option<DataPath>, NoMemory>
    ensures { IfOk result (λ path. IfSome path (IsLike like.now)) }
{
    match body_of(alloc, draft)? {
        Some(body) => whole_path(alloc, like, body),
        None => Ok(None),
    }
}
