//! The check of an order, channel by channel.

ghost use Rattle.std.specs.Prelude.{◌≡◌, ◌<◌, ◌↔◌, ℕ, IsTrue, All, Contains, length};
ghost use Rattle.settle_order.specs.declared.order.Demand.TheVariants.{Undriven};
ghost use Rattle.settle_order.specs.Order.{demand_at, rank_at, IsChannelOrdered, Serves};

use crate::order::Demand;
use switch_net::{Channel, ChannelKind, Network};

fn is_undriven(demand: Demand) -> bool
    ensures { IsTrue result ↔ (demand ≡ Undriven) }
{
    matches!(demand, Demand::Undriven)
}

/// A rank of an undriven node among these.
fn level(ends: &[u32], demands: &[Demand], ranks: &[u32]) -> u32
    requires ends { All (λ e. e < length demands.now) ends.now }
    requires ranks { length ranks.now ≡ length demands.now }
{
    for end in ends {
        if is_undriven(demands[*end as usize]) {
            return ranks[*end as usize];
        }
    }
    0
}

/// Whether each undriven node among these has this rank.
fn are_level(ends: &[u32], demands: &[Demand], ranks: &[u32], rank: u32) -> bool
    requires ends { All (λ e. e < length demands.now) ends.now }
    requires ranks { length ranks.now ≡ length demands.now }
    ensures { IsTrue result → (e : ℕ) → Contains ends.now e → demand_at demands.now e ≡ Undriven
        → rank_at ranks.now e ≡ rank }
{
    for end in ends {
        if is_undriven(demands[*end as usize]) && ranks[*end as usize] != rank {
            return false;
        }
    }
    true
}

/// Whether the ranks are in order at a channel.
fn is_in_order(channel: &Channel, demands: &[Demand], ranks: &[u32]) -> bool
    requires gate { channel.now.gate < length demands.now }
    requires ends { All (λ e. e < length demands.now) channel.now.ends }
    requires ranks { length ranks.now ≡ length demands.now }
    ensures { IsTrue result → IsChannelOrdered demands.now ranks.now channel.now }
{
    let ends = channel.ends.as_slice();
    let rank = level(ends, demands, ranks);
    match (channel.kind, demands[channel.gate as usize]) {
        (ChannelKind::Enhancement, Demand::Low) => true,
        (ChannelKind::Enhancement, Demand::Undriven) => {
            ranks[channel.gate as usize] < rank && are_level(ends, demands, ranks, rank)
        }
        _ => are_level(ends, demands, ranks, rank),
    }
}

/// Whether the ranks order the network where each driver is as it is asked.
pub(crate) fn is_order(network: &Network, demands: &[Demand], ranks: &[u32]) -> bool
    requires demands { length demands.now ≡ network.now.nodes }
    requires ranks { length ranks.now ≡ network.now.nodes }
    ensures { IsTrue result → Serves network.now.channels demands.now ranks.now }
{
    for channel in network.channels.as_slice() {
        if !is_in_order(channel, demands, ranks) {
            return false;
        }
    }
    true
}
