//! A network and its values.

ghost use Rattle.std.specs.Prelude.{◌≡◌, length, IfOk, replicate};
ghost use Rattle.mp_base.specs.declared.value.Trit.TheVariants.{X};
ghost use Rattle.switch_net.specs.Settled.{IsSettled};
ghost use Rattle.switch_net.specs.Values.{value_at, driver_at};

use crate::known::{Known, settle_values};
use crate::memory::Memory;
use mp_base::{List, NoMemory, Trit};
use node_clusters::{Board, Sets};
use settle_events::Queue;
use settle_order::Orders;
use std::alloc::Global;
use std::marker::Model;
use switch_net::Network;
use switch_net::laws::networks_settle;

/// A network with a value at each of its nodes, and all the memory that settling takes.
#[derive(Drop)]
pub struct Settler {
    network: Network,
    at: Vec<List<usize>>,
    gated: Vec<List<u32>>,
    values: Vec<Trit>,
    before: Vec<Trit>,
    last: Vec<Option<Trit>>,
    is_at_rest: bool,
    orders: Orders,
    sets: Sets,
    marks: Vec<bool>,
    queue: Queue,
}

impl Model for Settler {
    ghost use Rattle.settle.specs.Settler.{Settling};

    ghost Value = { Settling };

    ghost use Rattle.std.specs.Prelude.{◌≡◌, true};
    ghost use Rattle.settle.specs.Sizes.{AreSized, AreReady, AreAtRest};

    ghost view = { λ s. record { network = s.network; values = s.values.items } };

    ghost invariant = { λ s. AreSized s.network s.at.items s.gated.items s.values.items s.before.items s.last.items
        s.sets s.marks.items × AreReady s.network s.orders
        × (s.is_at_rest ≡ true → AreAtRest s.network s.last.items s.values.items) };
}

impl Settler {
    /// A network all of whose nodes are X. It is dropped where memory is wanting.
    pub fn open(alloc: Global, network: Network) -> Result<Settler, NoMemory>
        ensures network { IfOk result (λ s. s.network ≡ network) }
        ensures unknown { IfOk result (λ s. s.values ≡ replicate network.nodes X) }
    {
        let memory = Memory::new(alloc, &network)?;
        Ok(Settler {
            at: memory.links.at,
            gated: memory.links.gated,
            values: memory.levels.values,
            before: memory.levels.before,
            last: memory.levels.last,
            is_at_rest: false,
            orders: memory.orders,
            sets: memory.tools.sets,
            marks: memory.tools.marks,
            queue: memory.tools.queue,
            network,
        })
    }

    /// The network.
    pub fn network(&self) -> &Network
        ensures { result.now ≡ self.now.network }
    {
        &self.network
    }

    /// The value of each node.
    pub fn values(&self) -> &[Trit]
        ensures same { result.now ≡ self.now.values }
        ensures sized { length result.now ≡ self.now.network.nodes }
    {
        self.values.as_slice()
    }

    /// Sets the value of each node, as the charge that the next settling starts from.
    pub fn charge(&mut self, values: &[Trit])
        requires { length values.now ≡ self.old.network.nodes }
        ensures network { self.new.network ≡ self.old.network }
        ensures values { self.new.values ≡ values.now }
    {
        self.values.copy_from_slice(values);
        self.is_at_rest = false;
    }

    /// Settles the network from the values that it has, where these nodes are driven to these values.
    pub fn settle(&mut self, drive: &[Option<Trit>])
        requires { length drive.now ≡ self.old.network.nodes }
        ensures network { self.new.network ≡ self.old.network }
        ensures sized { length self.new.values ≡ self.old.network.nodes }
        ensures settled { IsSettled (record {
          channels = self.old.network.channels;
          driver = driver_at drive.now;
          before = value_at self.old.values;
        }) (value_at self.new.values) }
    {
        networks_settle();
        self.before.copy_from_slice(&self.values);
        let has_order = self.orders.find(&self.network, &self.gated, drive);
        let board = Board {
            network: &self.network,
            at: self.at.as_slice(),
            gated: self.gated.as_slice(),
            drive,
            before: self.before.as_slice(),
        };
        let known = Known {
            is_at_rest: self.is_at_rest,
            last: self.last.as_slice(),
            has_order,
            order: self.orders.nodes(),
        };
        settle_values(
            &board,
            &known,
            &mut self.values,
            &mut self.sets,
            &mut self.marks,
            &mut self.queue,
        );
        self.last.copy_from_slice(drive);
        self.is_at_rest = true;
    }
}
