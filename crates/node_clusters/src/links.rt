//! The channels at each node.

ghost use Rattle.std.specs.Prelude.{◌≡◌, ◌<◌, ◌++◌, IfOk, OnOk, All, length, replicate, []};
ghost use Rattle.node_clusters.specs.Links.{AddsLink, AreLinked, AddsGated, AreGated};

use mp_base::List;
use std::alloc::{AllocError, Global};
use switch_net::{Channel, ChannelKind, Network};

fn no_links(alloc: Global, nodes: u32) -> Result<Vec<List<usize>>, AllocError>
    ensures { IfOk result (λ lists. lists.items ≡ replicate nodes []) }
{
    let mut lists = Vec::new(alloc);
    for _node in 0..nodes {
        lists.push(List::new(alloc))?;
    }
    Ok(lists)
}

fn link(nodes: &[u32], number: usize, lists: &mut [List<usize>]) -> Result<(), AllocError>
    requires { All (λ n. n < length lists.old) nodes.now }
    ensures { OnOk result (AddsLink nodes.now number lists.old lists.new) }
{
    for node in nodes {
        lists[*node as usize].push(number)?;
    }
    Ok(())
}

/// At each node, the numbers of the channels that end there.
pub fn links_at_ends(alloc: Global, network: &Network) -> Result<Vec<List<usize>>, AllocError>
    ensures sized { IfOk result (λ lists. length lists.items ≡ network.now.nodes) }
    ensures linked { IfOk result (λ lists. AreLinked network.now.channels (length network.now.channels) lists.items) }
{
    let mut lists = no_links(alloc, network.nodes)?;
    let mut number: usize = 0;
    for channel in network.channels.as_slice() {
        link(channel.ends.as_slice(), number, &mut lists)?;
        number += 1;
    }
    Ok(lists)
}

fn add_ends(ends: &[u32], list: &mut List<u32>) -> Result<(), AllocError>
    ensures { OnOk result (list.new ≡ list.old ++ ends.now) }
{
    for end in ends {
        list.push(*end)?;
    }
    Ok(())
}

fn no_ends(alloc: Global, nodes: u32) -> Result<Vec<List<u32>>, AllocError>
    ensures { IfOk result (λ lists. length lists.items ≡ nodes) }
{
    let mut lists = Vec::new(alloc);
    for _node in 0..nodes {
        lists.push(List::new(alloc))?;
    }
    Ok(lists)
}

fn add_gated(channel: &Channel, lists: &mut [List<u32>]) -> Result<(), AllocError>
    requires { channel.now.gate < length lists.old }
    ensures { OnOk result (AddsGated channel.now lists.old lists.new) }
{
    if matches!(channel.kind, ChannelKind::Enhancement) {
        add_ends(channel.ends.as_slice(), &mut lists[channel.gate as usize])?;
        return Ok(());
    }
    Ok(())
}

/// At each node, the ends of the enhancement channels that it gates.
pub fn ends_gated(alloc: Global, network: &Network) -> Result<Vec<List<u32>>, AllocError>
    ensures sized { IfOk result (λ lists. length lists.items ≡ network.now.nodes) }
    ensures gated { IfOk result (λ lists. AreGated network.now.channels lists.items) }
{
    let mut lists = no_ends(alloc, network.nodes)?;
    for channel in network.channels.as_slice() {
        add_gated(channel, &mut lists)?;
    }
    Ok(lists)
}
