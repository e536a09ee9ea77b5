//! Making what a settler holds beside its network.

ghost use Rattle.std.specs.Prelude.{◌≡◌, IfOk, length, replicate};
ghost use Rattle.mp_base.specs.declared.value.Trit.TheVariants.{X};
ghost use Rattle.node_clusters.specs.Links.{AreLinked, AreGated};
ghost use Rattle.node_clusters.specs.Rooms.{HaveRoom};
ghost use Rattle.settle_order.specs.Orders.{AreSound};

use mp_base::{List, NoMemory, Trit};
use node_clusters::{Sets, ends_gated, links_at_ends};
use settle_events::Queue;
use settle_order::Orders;
use std::alloc::Global;
use switch_net::Network;

/// The channels that each node is an end of, and the ends of the channels that it gates.
#[derive(Drop)]
pub(crate) struct Links {
    pub at: Vec<List<usize>>,
    pub gated: Vec<List<u32>>,
}

impl Links {
    fn new(alloc: Global, network: &Network) -> Result<Links, NoMemory>
        ensures at_sized { IfOk result (λ l. length l.at.items ≡ network.now.nodes) }
        ensures linked { IfOk result (λ l. AreLinked network.now.channels (length network.now.channels) l.at.items) }
        ensures gated_sized { IfOk result (λ l. length l.gated.items ≡ network.now.nodes) }
        ensures gated { IfOk result (λ l. AreGated network.now.channels l.gated.items) }
    {
        let at = links_at_ends(alloc, network)?;
        let gated = ends_gated(alloc, network)?;
        Ok(Links { at, gated })
    }
}

/// The value of each node, its charge, and what drove it last.
#[derive(Drop)]
pub(crate) struct Levels {
    pub values: Vec<Trit>,
    pub before: Vec<Trit>,
    pub last: Vec<Option<Trit>>,
}

impl Levels {
    fn new(alloc: Global, nodes: usize) -> Result<Levels, NoMemory>
        ensures values { IfOk result (λ l. l.values.items ≡ replicate nodes X) }
        ensures before { IfOk result (λ l. length l.before.items ≡ nodes) }
        ensures last { IfOk result (λ l. length l.last.items ≡ nodes) }
    {
        let values = vec![in alloc; Trit::X; nodes]?;
        let before = vec![in alloc; Trit::X; nodes]?;
        let last = vec![in alloc; None; nodes]?;
        Ok(Levels {
            values,
            before,
            last,
        })
    }
}

/// What the looks at clusters take.
#[derive(Drop)]
pub(crate) struct Tools {
    pub sets: Sets,
    pub marks: Vec<bool>,
    pub queue: Queue,
}

impl Tools {
    fn new(alloc: Global, nodes: u32) -> Result<Tools, NoMemory>
        ensures sets { IfOk result (λ t. HaveRoom nodes t.sets) }
        ensures marks { IfOk result (λ t. length t.marks.items ≡ nodes) }
    {
        let marks = vec![in alloc; false; nodes as usize]?;
        let queue = Queue::new(alloc, nodes)?;
        let sets = Sets::new(alloc, nodes)?;
        Ok(Tools { sets, marks, queue })
    }
}

/// The memory that settling a network takes.
#[derive(Drop)]
pub(crate) struct Memory {
    pub links: Links,
    pub levels: Levels,
    pub tools: Tools,
    pub orders: Orders,
}

impl Memory {
    pub(crate) fn new(alloc: Global, network: &Network) -> Result<Memory, NoMemory>
        ensures at_sized { IfOk result (λ m. length m.links.at.items ≡ network.now.nodes) }
        ensures linked { IfOk result (λ m. AreLinked network.now.channels (length network.now.channels)
            m.links.at.items) }
        ensures gated_sized { IfOk result (λ m. length m.links.gated.items ≡ network.now.nodes) }
        ensures gated { IfOk result (λ m. AreGated network.now.channels m.links.gated.items) }
        ensures values { IfOk result (λ m. m.levels.values.items ≡ replicate network.now.nodes X) }
        ensures before { IfOk result (λ m. length m.levels.before.items ≡ network.now.nodes) }
        ensures last { IfOk result (λ m. length m.levels.last.items ≡ network.now.nodes) }
        ensures sets { IfOk result (λ m. HaveRoom network.now.nodes m.tools.sets) }
        ensures marks { IfOk result (λ m. length m.tools.marks.items ≡ network.now.nodes) }
        ensures room { IfOk result (λ m. m.orders.room ≡ network.now.nodes) }
        ensures sound { IfOk result (λ m. AreSound network.now.channels m.orders) }
    {
        let links = Links::new(alloc, network)?;
        let levels = Levels::new(alloc, network.nodes as usize)?;
        let orders = Orders::new(alloc, network.nodes)?;
        let tools = Tools::new(alloc, network.nodes)?;
        Ok(Memory {
            links,
            levels,
            tools,
            orders,
        })
    }
}
