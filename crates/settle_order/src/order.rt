//! An order, and the drivers that it serves.

ghost use Rattle.std.specs.Prelude.{◌≡◌, IfOk, IsTrue, false, length};
ghost use Rattle.settle_order.specs.Order.{Fits, FitAll, IsServing, AreRoomy};

use mp_base::Trit;
use std::alloc::{AllocError, Global};

/// What an order asks of the driver of a node.
#[derive(Clone, Copy)]
pub(crate) enum Demand {
    Undriven,
    Driven,
    Low,
}

/// A rank of each node, the undriven nodes in an order of their ranks, and what it asks of the drivers.
#[derive(Drop)]
pub(crate) struct Order {
    pub made: bool,
    pub demands: Vec<Demand>,
    pub ranks: Vec<u32>,
    pub nodes: Vec<u32>,
    pub count: usize,
}

impl Demand {
    fn fits(self, driver: Option<Trit>) -> bool
        ensures { IsTrue result → Fits self driver }
    {
        match (self, driver) {
            (Demand::Undriven, None) => true,
            (Demand::Driven, Some(_)) => true,
            (Demand::Low, Some(Trit::Zero)) => true,
            _ => false,
        }
    }
}

impl Order {
    pub(crate) fn new(alloc: Global, room: usize) -> Result<Order, AllocError>
        ensures room { IfOk result (AreRoomy room) }
        ensures none { IfOk result (λ o. o.made ≡ false) }
    {
        Ok(Order {
            made: false,
            demands: vec![in alloc; Demand::Undriven; room]?,
            ranks: vec![in alloc; 0; room]?,
            nodes: vec![in alloc; 0; room]?,
            count: 0,
        })
    }
}

impl Order {
    /// Whether the order was made and serves these drivers.
    pub(crate) fn is_serving(&self, drive: &[Option<Trit>]) -> bool
        requires { length self.now.demands.items ≡ length drive.now }
        ensures { IsTrue result → IsServing drive.now self.now }
    {
        self.made && serves(&self.demands, drive)
    }
}

/// Whether each driver is as it is asked.
fn serves(demands: &[Demand], drive: &[Option<Trit>]) -> bool
    requires { length demands.now ≡ length drive.now }
    ensures { IsTrue result → FitAll demands.now drive.now }
{
    for node in 0..demands.len() {
        if !demands[node].fits(drive[node]) {
            return false;
        }
    }
    true
}
