//! The orders of the last few sets of drivers.

ghost use Rattle.std.specs.Prelude.{◌≡◌, ℕ, List, IfOk, IfSome, IsTrue, false, All, Any, length};
ghost use Rattle.mp_base.specs.declared.value.Trit.{Trit as TritValue};
ghost use Rattle.switch_net.specs.declared.network.Channel.{Channel as ChannelValue};
ghost use Rattle.settle_order.specs.declared.order.Order.{Order as OrderValue};
ghost use Rattle.settle_order.specs.Order.{AreRoomy, IsServing};
ghost use Rattle.switch_net.specs.Values.{driver_at};
ghost use Rattle.settle_order.specs.Orders.{AreSound, HasOrder};

use crate::check::is_order;
use crate::maker::Maker;
use crate::order::Order;
use mp_base::{List, Trit};
use std::alloc::{AllocError, Global};
use std::marker::Model;
use switch_net::Network;

/// How many orders are kept: one for each of three phases, and one more.
const KEPT: usize = 4;

/// After so many settings at most an order is tried again where there was none.
const LONGEST_REST: u32 = 64;

/// Orders of a network, each for the drivers that it serves, and all the memory that making one takes.
#[derive(Drop)]
pub struct Orders {
    room: usize,
    orders: Vec<Order>,
    maker: Maker,
    last: usize,
    next: usize,
    failures: u32,
    rests: u32,
}

impl Model for Orders {
    ghost use Rattle.std.specs.Prelude.{All};
    ghost use Rattle.settle_order.specs.Order.{AreRoomy};
    ghost use Rattle.settle_order.specs.Orders.{Orderings};

    ghost Value = { Orderings };

    ghost view = { λ s. record { room = s.room; orders = s.orders.items } };

    ghost invariant = { λ s. All (AreRoomy s.room) s.orders.items };
}

fn empty_orders(alloc: Global, room: usize) -> Result<Vec<Order>, AllocError>
    ensures room { IfOk result (λ orders. All (AreRoomy room) orders.items) }
    ensures none { IfOk result (λ orders. All (λ (o : OrderValue). o.made ≡ false) orders.items) }
{
    let mut orders = Vec::new(alloc);
    for _order in 0..KEPT {
        orders.push(Order::new(alloc, room)?)?;
    }
    Ok(orders)
}

// The number of an order that serves these drivers.
fn serving(orders: &[Order], room: usize, drive: &[Option<Trit>]) -> Option<usize>
    requires room { All (AreRoomy room) orders.now }
    requires drive { length drive.now ≡ room }
    ensures { IfSome result (λ _. Any (IsServing drive.now) orders.now) }
{
    for index in 0..orders.len() {
        if orders[index].is_serving(drive) {
            return Some(index);
        }
    }
    None
}

impl Orders {
    /// No orders yet, for a network of so many nodes.
    pub fn new(alloc: Global, nodes: u32) -> Result<Orders, AllocError>
        ensures room { IfOk result (λ o. o.room ≡ nodes) }
        ensures sound { IfOk result (λ o. (channels : List ChannelValue) → AreSound channels o) }
    {
        let room = nodes as usize;
        Ok(Orders {
            room,
            orders: empty_orders(alloc, room)?,
            maker: Maker::new(alloc, room)?,
            last: 0,
            next: 0,
            failures: 0,
            rests: 0,
        })
    }

    /// The undriven nodes in the order that was found last, each behind what gates it: a hint.
    pub fn nodes(&self) -> &[u32] {
        match self.orders.get(self.last) {
            Some(order) if order.count <= order.nodes.len() => &order.nodes[..order.count],
            _ => &[],
        }
    }

    // Looks for an order that serves these drivers, first where one did last.
    fn recall(&mut self, drive: &[Option<Trit>]) -> bool
        requires { length drive.now ≡ self.old.room }
        ensures same { self.new ≡ self.old }
        ensures served { IsTrue result → Any (IsServing drive.now) self.old.orders }
    {
        if self.last < self.orders.len() && self.orders[self.last].is_serving(drive) {
            return true;
        }
        match serving(&self.orders, self.room, drive) {
            Some(index) => {
                self.last = index;
                true
            }
            None => false,
        }
    }

    // Makes an order in place of the oldest, and says whether it passes the check.
    fn make(&mut self, network: &Network, gated: &[List<u32>], drive: &[Option<Trit>]) -> bool
        requires room { self.old.room ≡ network.now.nodes }
        requires drive { length drive.now ≡ network.now.nodes }
        requires sound { AreSound network.now.channels self.old }
        ensures room { self.new.room ≡ self.old.room }
        ensures sound { AreSound network.now.channels self.new }
        ensures served { IsTrue result → Any (IsServing drive.now) self.new.orders }
    {
        let index = self.next;
        if index >= self.orders.len() {
            self.next = 0;
            return false;
        }
        let order = &mut self.orders[index];
        order.made = false;
        self.maker.make(network, gated, drive, order);
        order.made = is_order(network, &order.demands, &order.ranks);
        self.last = index;
        self.next = if index + 1 < KEPT { index + 1 } else { 0 };
        self.orders[index].is_serving(drive)
    }

    /// Looks for an order of the network under these drivers, and makes one where there is none. Says whether one
    /// was found. `gated` has for each node the ends of the enhancement channels that it gates: a hint.
    pub fn find(&mut self, network: &Network, gated: &[List<u32>], drive: &[Option<Trit>]) -> bool
        requires room { self.old.room ≡ network.now.nodes }
        requires drive { length drive.now ≡ network.now.nodes }
        requires sound { AreSound network.now.channels self.old }
        ensures room { self.new.room ≡ self.old.room }
        ensures sound { AreSound network.now.channels self.new }
        ensures order { IsTrue result → (before : ℕ → TritValue)
            → HasOrder (record { channels = network.now.channels; driver = driver_at drive.now; before = before }) }
    {
        if self.recall(drive) {
            return true;
        }
        if self.rests > 0 {
            self.rests -= 1;
            return false;
        }
        let found = self.make(network, gated, drive);
        self.failures = if found { 0 } else { longer(self.failures) };
        self.rests = self.failures;
        found
    }
}

fn longer(failures: u32) -> u32 {
    if failures < LONGEST_REST {
        failures + failures + 1
    } else {
        failures
    }
}
