//! What is settled.

ghost use Rattle.std.specs.Prelude.{◌≡◌, ◌<◌, All, Some, length, slice_get};
ghost use Rattle.node_clusters.specs.Board.{nodes_of};
ghost use Rattle.node_clusters.specs.Links.{AreLinked, listed};

use mp_base::{List, Trit};
use switch_net::{Channel, Network};

/// A network with the channels at each node, the ends of those that it gates, its driver, and the values before.
#[derive(Clone, Copy)]
pub struct Board<'a> {
    pub network: &'a Network,
    pub at: &'a [List<usize>],
    pub gated: &'a [List<u32>],
    pub drive: &'a [Option<Trit>],
    pub before: &'a [Trit],
}

impl<'a> Board<'a> {
    // The numbers of the channels at a node, which are channels of the network.
    pub(crate) fn numbers_at(&self, node: u32) -> &'a [usize]
        requires linked { AreLinked self.now.network.now.channels
            (length self.now.network.now.channels) self.now.at.now }
        requires node { node < length self.now.at.now }
        ensures listed { result.now ≡ listed self.now.at.now node }
        ensures inside { All (λ j. j < length self.now.network.now.channels) result.now }
    {
        self.at[node as usize].as_slice()
    }

    // The channel of a number, whose gate and ends are nodes of the network.
    pub(crate) fn channel(&self, number: usize) -> &'a Channel
        requires { number < length self.now.network.now.channels }
        ensures is { slice_get self.now.network.now.channels number ≡ Some result.now }
        ensures gate { result.now.gate < nodes_of self.now }
        ensures ends { All (λ e. e < nodes_of self.now) result.now.ends }
    {
        &self.network.channels.as_slice()[number]
    }
}
