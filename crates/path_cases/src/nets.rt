//! What a flat net is given at its inputs and shows at its outputs.

use mp_base::{List, NoMemory, Trit};
use nor_net::{Net, NetId, NetKind, Phase, settle_net};
use path_form::Flattened;
use std::alloc::Global;

fn bit_of(word: u64, index: usize) -> Trit {
    if index >= 64 {
        return Trit::Zero;
    }
    if (word >> index) & 1 == 1 {
        Trit::One
    } else {
        Trit::Zero
    }
}

// What is given at a net, where these words are given at the pads.
fn bit_at(rows: &List<List<NetId>>, words: &[u64], net: NetId) -> Trit {
    for (row, word) in rows.as_slice().iter().zip(words) {
        for (index, id) in row.as_slice().iter().enumerate() {
            if *id == net {
                return bit_of(*word, index);
            }
        }
    }
    Trit::X
}

/// The values of the inputs, in their order, where these words are given at the pads.
pub(crate) fn given(
    alloc: Global,
    flat: &Flattened,
    words: &[u64],
) -> Result<List<Trit>, NoMemory> {
    let mut given = List::new(alloc);
    for number in 0..flat.net.len() {
        let net = NetId(number);
        if let NetKind::Input = flat.net.kind(net) {
            given.push(bit_at(&flat.inputs, words, net))?;
        }
    }
    Ok(given)
}

/// Settles the net, if there is a value for each net and each input.
pub(crate) fn settle(
    net: &Net,
    phase: Option<Phase>,
    given: &List<Trit>,
    values: &mut List<Trit>,
) -> bool {
    if given.len() != net.inputs() as usize || values.len() != net.len() as usize || !net.is_fed() {
        return false;
    }
    settle_net(net, phase, given, values);
    true
}

/// The number that these nets show, bit 0 first, or none where a bit isn't known.
pub(crate) fn number_of(values: &List<Trit>, row: &[NetId]) -> Option<u64> {
    let mut number = 0u64;
    for id in row.iter().rev() {
        let bit = match values.as_slice().get(id.0 as usize) {
            Some(Trit::Zero) => 0,
            Some(Trit::One) => 1,
            _ => return None,
        };
        number = number.wrapping_mul(2) | bit;
    }
    Some(number)
}
