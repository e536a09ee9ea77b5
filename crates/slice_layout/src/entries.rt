//! The nets that pads are joined to.

ghost use Rattle.std.specs.Prelude.{◌≡◌, ◌++◌, IfOk, OnOk, length};
ghost use Rattle.path_form.specs.Shape.{entries_of};
ghost use Rattle.slice_form.specs.Whole as whole;
ghost use Rattle.slice_layout.specs.Entries.{entry_of};

use mp_base::{List, Pad};
use nor_net::NetId;
use path_form::DataPath;
use std::alloc::{AllocError, Global};

// The net of a pad, where this is a word or a signal as is asked.
fn push_entry(nets: &mut List<NetId>, pad: &Pad, id: NetId, words: bool) -> Result<(), AllocError>
    ensures { OnOk result (nets.new ≡ nets.old ++ entry_of words pad.now id) }
{
    let asked = if pad.width == 0 { !words } else { words };
    if asked {
        nets.push(id)?;
    }
    Ok(())
}

fn push_entries(
    nets: &mut List<NetId>,
    pads: &[Pad],
    ids: &[NetId],
    words: bool,
) -> Result<(), AllocError>
    requires { length ids.now ≡ length pads.now }
    ensures { OnOk result (nets.new ≡ nets.old ++ entries_of words pads.now ids.now) }
{
    for index in 0..pads.len() {
        push_entry(nets, &pads[index], ids[index], words)?;
    }
    Ok(())
}

/// The nets of all pads that are words, which each slice has, or of those that are signals, in the control.
///
/// # Errors
/// Want of memory.
pub fn pad_entries(alloc: Global, path: &DataPath, words: bool) -> Result<List<NetId>, AllocError>
    ensures { IfOk result (λ nets. nets ≡ whole.pad_entries words path.now) }
{
    let mut nets = List::new(alloc);
    push_entries(
        &mut nets,
        path.pads.inputs.as_slice(),
        path.inputs.as_slice(),
        words,
    )?;
    push_entries(
        &mut nets,
        path.pads.outputs.as_slice(),
        path.outputs.as_slice(),
        words,
    )?;
    Ok(nets)
}
