//! Words that stand already, and bits that are lifted from them.

ghost use Rattle.std.specs.Prelude.{◌≡◌, ◌-◌, ◌<◌, Some, OnOk, length, slice_get};
ghost use Rattle.nor_net.specs.declared.net.NetId as net_id;
ghost use Rattle.control_nor.specs.Lowering.{Stands};
ghost use Rattle.datapath_making.specs.Steps.{IsStep, IsWaited};
ghost use Rattle.datapath_making.specs.WellMade.{IsWellMade};
ghost use Rattle.datapath_sharing.specs.Sharing.{IsLiftMade, with_word};

use datapath_making::Making;
use mp_base::NoMemory;
use nor_net::NetId;
use path_form::Lift;

/// The net that stands for an entry.
pub(crate) fn net_of(entries: &[Option<NetId>], index: u32) -> NetId
    requires { (id : net_id.NetId) × Stands entries.now index id }
    ensures { Stands entries.now index result }
{
    match entries[index as usize] {
        Some(net) => net,
        None => NetId(0),
    }
}

/// The lift that was added last.
pub(crate) fn last_lift(lifts: &[Lift]) -> Lift
    requires { 0 < length lifts.now }
    ensures { slice_get lifts.now (length lifts.now - 1) ≡ Some result }
{
    lifts[lifts.len() - 1]
}

/// The word of an expression, where it stands already.
pub(crate) fn share_word(making: &mut Making, expr: u32, word: NetId)
    requires made { IsWellMade making.old }
    requires expr { expr < length making.old.words }
    requires word { word.0 < length making.old.slices.net }
    ensures shared { making.new ≡ with_word expr word making.old }
    ensures step { IsStep 0 0 making.old making.new }
{
    making.words.set(expr, Some(word));
}

/// The bit of an expression that tests words, where the answer stands already: it is lifted into the control from the
/// top slice.
///
/// # Errors
///
/// `NoMemory`: then nothing was added.
pub(crate) fn add_lift(making: &mut Making, expr: u32, from: NetId) -> Result<(), NoMemory>
    requires made { IsWellMade making.old }
    requires wide { 0 < making.old.width }
    requires entry { IsWaited making.old expr }
    requires from { from.0 < length making.old.slices.net }
    ensures step { OnOk result (IsStep 1 1 making.old making.new) }
    ensures lift { OnOk result (IsLiftMade expr from making.old making.new) }
{
    let control = net_of(making.names.exprs.as_slice(), expr);
    let slice = making.width - 1;
    making.lifts.push(Lift {
        slice,
        from,
        control,
    })?;
    Ok(())
}
