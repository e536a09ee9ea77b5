//! What a fabric draws and means, in words.

use crate::build::{build, copy};
use extractor::extract;
use fabric::Fabric;
use mp_base::{NoMemory, Refusal};
use std::alloc::{AllocError, Global};
use switch_net::{Channel, Network};

fn switched(alloc: Global, channel: &Channel) -> Result<String, AllocError> {
    let (kind, gate) = (channel.kind, channel.gate);
    let mut words = format!(in alloc; "; {kind:?} of {gate} between")?;
    for end in channel.ends.as_slice() {
        write!(words, " {end}")?;
    }
    Ok(words)
}

fn shown(alloc: Global, net: &Network) -> Result<String, AllocError> {
    let mut words = format!(in alloc; "{} nodes", net.nodes)?;
    for channel in net.channels.as_slice() {
        words.push_str(&switched(alloc, channel)?)?;
    }
    Ok(words)
}

// The network that a fabric draws, where its masks break no rule.
fn drawn(alloc: Global, fabric: &Fabric) -> Result<Option<Network>, NoMemory> {
    let shape = fabric.shape(alloc)?;
    match extract(alloc, shape.as_slice(), &[]) {
        Ok(network) => Ok(Some(network)),
        Err(Refusal::NoMemory) => Err(NoMemory),
        Err(Refusal::Broken(_)) => Ok(None),
    }
}

// The network that a fabric means.
fn meant(alloc: Global, fabric: &Fabric) -> Result<Network, NoMemory> {
    fabric.switches(alloc)
}

// The network that a fabric draws, and the one that it means.
fn both(alloc: Global, fabric: &Fabric) -> Result<Option<(Network, Network)>, NoMemory> {
    let meant = meant(alloc, fabric)?;
    Ok(drawn(alloc, fabric)?.map(|drawn| (drawn, meant)))
}

// The networks of a fabric that is filled with the same things at once.
fn of_copy(alloc: Global, fabric: &Fabric) -> Result<Option<(Network, Network)>, NoMemory> {
    let copy = copy(alloc, fabric)?;
    both(alloc, &copy)
}

// The network that is drawn, and the one that is meant.
fn networks(alloc: Global, text: &[u8]) -> Result<Option<(Network, Network)>, NoMemory> {
    match build(alloc, text)? {
        Some(fabric) => of_copy(alloc, &fabric),
        None => Ok(None),
    }
}

// Both networks, each on a line.
fn told(alloc: Global, drawn: &Network, meant: &Network) -> Result<String, AllocError> {
    let drawn = shown(alloc, drawn)?;
    let meant = shown(alloc, meant)?;
    format!(in alloc; "drawn: {drawn}\n    meant: {meant}")
}

/// The network that a fabric draws, and on a second line that of its segments, lines and marks.
pub(crate) fn answer(alloc: Global, text: &[u8]) -> Result<String, AllocError> {
    match networks(alloc, text) {
        Ok(Some((drawn, meant))) => told(alloc, &drawn, &meant),
        Ok(None) => format!(in alloc; "no fabric"),
        Err(NoMemory) => format!(in alloc; "no memory"),
    }
}
