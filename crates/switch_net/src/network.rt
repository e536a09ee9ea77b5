//! Networks of nodes and channels.

ghost use Rattle.std.specs.Prelude.{◌≡◌, ◌<◌, ◌↔◌, All, IsSome, IfSome};
ghost use Rattle.switch_net.specs.OneNode.{AreAmong, OneNodeEach};

use mp_base::{List, Name};

/// How the gate of a channel acts on it.
#[derive(Clone, Copy, PartialEq, Eq, Debug)]
pub enum ChannelKind {
    Enhancement,
    Depletion,
    Partial,
}

/// A channel: its gate, and its ends in ascending order, each by the number of its node.
#[derive(Drop)]
pub struct Channel {
    pub gate: u32,
    pub ends: List<u32>,
    pub kind: ChannelKind,
}

/// A name on a node, and the byte of the file at which the label stands.
#[derive(Drop)]
pub struct Tag {
    pub offset: u64,
    pub name: Name,
    pub node: u32,
}

/// The channels between nodes that are numbered from 0, and the labels of nodes in the order of the file.
#[derive(Drop)]
pub struct Network {
    pub nodes: u32,
    pub channels: List<Channel>,
    pub tags: List<Tag>,
    pub ghost gates_in: { All (λ c. c.gate < nodes) channels },
    pub ghost ends_in: { All (λ c. All (λ e. e < nodes) c.ends) channels },
    pub ghost tags_in: { All (λ t. t.node < nodes) tags },
    pub ghost one_node_each: { OneNodeEach tags },
}

impl Network {
    /// The network, where each gate, each end and each labelled node is one of its nodes.
    pub fn checked(nodes: u32, channels: List<Channel>, tags: List<Tag>) -> Option<Network>
        requires { OneNodeEach tags }
        ensures among { IsSome result ↔ AreAmong nodes channels tags }
        ensures parts { IfSome result (λ net. (net.nodes ≡ nodes) × (net.channels ≡ channels) × (net.tags ≡ tags)) }
    {
        let gates_in = channels.as_slice().iter().all(|c| c.gate < nodes);
        let ends_in = channels
            .as_slice()
            .iter()
            .all(|c| c.ends.as_slice().iter().all(|e| *e < nodes));
        let tags_in = tags.as_slice().iter().all(|t| t.node < nodes);
        if gates_in && ends_in && tags_in {
            Some(Network {
                nodes,
                channels,
                tags,
            })
        } else {
            None
        }
    }
}

#[cfg(test)]
mod tests {
    use super::{Channel, ChannelKind, Network, Tag};
    use mp_base::{List, Name};
    use std::alloc::{AllocError, Global};
    use std::test::Fail;

    // One channel from node 0, and one label.
    fn inverter(
        alloc: Global,
        gate: u32,
        end: u32,
        label: u32,
    ) -> Result<Option<Network>, AllocError> {
        let mut channels = List::new(alloc);
        channels.push(Channel {
            gate,
            ends: List::from_vec([0, end].to_vec(alloc)?),
            kind: ChannelKind::Depletion,
        })?;
        let mut tags = List::new(alloc);
        tags.push(Tag {
            offset: 0,
            name: Name::from_slice(alloc, b"y")?,
            node: label,
        })?;
        Ok(Network::checked(2, channels, tags))
    }

    #[test]
    fn numbers_are_nodes(rt: HostRuntime) -> Result<(), Fail> {
        for (gate, end, label, fits) in [
            (1, 1, 1, true),
            (2, 1, 1, false),
            (1, 2, 1, false),
            (1, 1, 2, false),
        ] {
            let net = inverter(rt.alloc(), gate, end, label)?;
            assert_eq!(rt; net.is_some(), fits, "at {gate}, {end}, {label}");
        }
        Ok(())
    }
}
