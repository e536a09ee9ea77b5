//! The nets of the bits of pads.

ghost use Rattle.std.specs.Prelude.{◌≡◌, IfOk, length};
ghost use Rattle.path_form.specs.Flat.{ArePadsOf};
ghost use Rattle.path_flat.specs.Numbers.{ArePadBits, number_of};

use crate::numbers::Numbers;
use mp_base::{List, NoMemory, Pad};
use nor_net::NetId;
use std::alloc::Global;

// The nets of the bits of one pad, bit 0 first.
fn bits_of(alloc: Global, numbers: &Numbers, width: u8, id: NetId) -> Result<List<NetId>, NoMemory>
    ensures { IfOk result (ArePadBits (number_of numbers.now) width id) }
{
    let mut bits = List::new(alloc);
    if width == 0 {
        bits.push(numbers.at(0, id.0))?;
    } else {
        for k in 0..width {
            bits.push(numbers.at(k as u32 + 1, id.0))?;
        }
    }
    Ok(bits)
}

/// The nets of the bits of each pad, whose net is told for each.
pub(crate) fn rows_of(
    alloc: Global,
    numbers: &Numbers,
    pads: &[Pad],
    ids: &[NetId],
) -> Result<List<List<NetId>>, NoMemory>
    requires { length ids.now ≡ length pads.now }
    ensures size { IfOk result (λ rows. length rows ≡ length pads.now) }
    ensures pads { IfOk result (ArePadsOf pads.now ids.now (number_of numbers.now)) }
{
    let mut rows = List::new(alloc);
    for index in 0..pads.len() {
        rows.push(bits_of(alloc, numbers, pads[index].width, ids[index])?)?;
    }
    Ok(rows)
}
