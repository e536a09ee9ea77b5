//! The sets that a look at a cluster fills.

ghost use Rattle.std.specs.Prelude.{◌≡◌, ◌<◌, None, IfOk};
ghost use Rattle.switch_net.specs.Values.{value_at, driver_at};
ghost use Rattle.node_clusters.specs.Board.{setting_of, nodes_of, IsMoment};
ghost use Rattle.node_clusters.specs.Rooms.{HaveRoom, HoldCluster};

use crate::board::Board;
use crate::give::{gather, give};
use mp_base::Trit;
use node_set::NodeSet;
use std::alloc::{AllocError, Global};

/// A cluster, of its nodes those that are given 0 and 1, and two sets that serve to find these.
#[derive(Drop)]
pub struct Sets {
    pub cluster: NodeSet,
    pub held: NodeSet,
    pub against: NodeSet,
    pub zeros: NodeSet,
    pub ones: NodeSet,
}

impl Sets {
    /// Sets that have room for so many nodes.
    pub fn new(alloc: Global, nodes: u32) -> Result<Sets, AllocError>
        ensures { IfOk result (HaveRoom nodes) }
    {
        Ok(Sets {
            cluster: NodeSet::new(alloc, nodes)?,
            held: NodeSet::new(alloc, nodes)?,
            against: NodeSet::new(alloc, nodes)?,
            zeros: NodeSet::new(alloc, nodes)?,
            ones: NodeSet::new(alloc, nodes)?,
        })
    }

    /// Finds the cluster of an undriven node, and which of its nodes are given 0 and 1.
    pub fn fill(&mut self, board: &Board<'_>, values: &[Trit], node: u32)
        requires moment { IsMoment board.now values.now }
        requires node { node < nodes_of board.now }
        requires undriven { driver_at board.now.drive.now node ≡ None }
        requires sets { HaveRoom (nodes_of board.now) self.old }
        ensures sets { HaveRoom (nodes_of board.now) self.new }
        ensures cluster { HoldCluster (setting_of board.now) (value_at values.now) node self.new }
    {
        gather(board, values, node, &mut self.cluster);
        give(
            board,
            values,
            Trit::Zero,
            &self.cluster,
            &mut self.held,
            &mut self.against,
            &mut self.zeros,
        );
        give(
            board,
            values,
            Trit::One,
            &self.cluster,
            &mut self.held,
            &mut self.against,
            &mut self.ones,
        );
    }
}
