//! A word operator in slices, which are settled one after another along its chain.

ghost use Rattle.std.specs.Prelude.{◌<◌, ◌≤◌};

use mp_base::{List, NoMemory, Trit};
use nor_net::{Net, NetId, settle_net};
use organelles::{Chain, Organelle, SliceNet, build};
use std::alloc::Global;

/// A slice net that has one operator, on two inputs of its own.
#[derive(Drop)]
pub(crate) struct Operator {
    slices: SliceNet,
    result: NetId,
}

// Whether an operator has one operand.
fn is_unary(op: Organelle) -> bool {
    matches!(
        op,
        Organelle::Inc
            | Organelle::Dec
            | Organelle::Not
            | Organelle::Left
            | Organelle::Right
            | Organelle::Zero
    )
}

/// Builds an operator on two inputs; one with one operand reads the first alone.
pub(crate) fn built(alloc: Global, op: Organelle) -> Result<Operator, NoMemory> {
    let mut net = Net::new(alloc);
    let a = net.input()?;
    let b = net.input()?;
    let mut slices = SliceNet {
        net,
        chains: List::new(alloc),
        programs: List::new(alloc),
    };
    let ports = if is_unary(op) {
        build(alloc, op, &[a], &mut slices)?
    } else {
        build(alloc, op, &[a, b], &mut slices)?
    };
    Ok(Operator {
        slices,
        result: ports.result,
    })
}

// The values of a net without latches whose inputs are given these, the first ones where there are more.
fn settled(alloc: Global, net: &Net, given: [Trit; 3]) -> Result<Option<List<Trit>>, NoMemory> {
    let mut inputs = List::new(alloc);
    for bit in given {
        if inputs.len() < net.inputs() as usize {
            inputs.push(bit)?;
        }
    }
    let mut values = List::new(alloc);
    for _ in 0..net.len() {
        values.push(Trit::X)?;
    }
    if inputs.len() != net.inputs() as usize {
        return Ok(None);
    }
    if values.len() != net.len() as usize {
        return Ok(None);
    }
    if !net.is_fed() {
        return Ok(None);
    }
    settle_net(net, None, &inputs, &mut values);
    Ok(Some(values))
}

fn value_at(values: &List<Trit>, net: NetId) -> Trit {
    match values.as_slice().get(net.0 as usize) {
        Some(value) => *value,
        None => Trit::X,
    }
}

fn bit_of(word: u64, k: u8) -> Trit
    requires { k < 64 }
{
    if word >> k & 1 == 1 {
        Trit::One
    } else {
        Trit::Zero
    }
}

impl Operator {
    // The net that the chain comes from, and whether the chain goes down.
    fn chain(&self) -> Option<(NetId, bool)> {
        match self.slices.chains.as_slice().first() {
            Some(Chain::Up { from, .. }) => Some((*from, false)),
            Some(Chain::Down { from, .. }) => Some((*from, true)),
            None => None,
        }
    }

    /// The bits that the result has in the slices, or none where one isn't known.
    pub fn word(&self, alloc: Global, width: u8, x: u64, y: u64) -> Result<Option<u64>, NoMemory>
        requires { width ≤ 64 }
    {
        let chain = self.chain();
        let mut end = Trit::Zero;
        let mut word = 0;
        for turn in 0..width {
            let k = match chain {
                Some((_, true)) => width - 1 - turn,
                _ => turn,
            };
            let given = [bit_of(x, k), bit_of(y, k), end];
            let Some(values) = settled(alloc, &self.slices.net, given)? else {
                return Ok(None);
            };
            match value_at(&values, self.result) {
                Trit::Zero => {}
                Trit::One => word |= 1u64 << k,
                Trit::X => return Ok(None),
            }
            if let Some((from, _)) = chain {
                end = value_at(&values, from);
            }
        }
        Ok(Some(word))
    }
}
