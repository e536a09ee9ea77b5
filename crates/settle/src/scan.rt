//! Looks in an order in which gates come before what they gate.

ghost use Rattle.std.specs.Prelude.{◌≡◌, ◌<◌, ℕ, IsTrue, length};
ghost use Rattle.switch_net.specs.Settled.{IsSettled};
ghost use Rattle.node_clusters.specs.Values.{IsMarked};
ghost use Rattle.switch_net.specs.Values.{value_at};
ghost use Rattle.node_clusters.specs.Board.{setting_of, nodes_of, IsMoment};
ghost use Rattle.node_clusters.specs.Rooms.{HaveRoom};
ghost use Rattle.settle_order.specs.Orders.{HasOrder};
ghost use Rattle.settle.specs.Start.{IsReady};

use crate::look::look;
use mp_base::Trit;
use node_clusters::{Board, Sets};
use settle_laws::laws::ordered_settings_settle;

fn is_waiting(waits: &[bool], node: u32) -> bool
    ensures inside { IsTrue result → node < length waits.now }
    ensures waiting { IsTrue result → IsMarked waits.now node }
{
    let at = node as usize;
    at < waits.len() && waits[at]
}

fn is_none_waiting(waits: &[bool]) -> bool
    ensures { IsTrue result → (n : ℕ) → ¬ IsMarked waits.now n }
{
    for waiting in waits {
        if *waiting {
            return false;
        }
    }
    true
}

/// Looks at each of these nodes that waits when its turn comes.
pub(crate) fn scan(
    board: &Board<'_>,
    order: &[u32],
    values: &mut [Trit],
    sets: &mut Sets,
    waits: &mut [bool],
)
    requires moment { IsMoment board.now values.old }
    requires sets { HaveRoom (nodes_of board.now) sets.old }
    requires waits { length waits.old ≡ nodes_of board.now }
    requires ready { IsReady (setting_of board.now) values.old waits.old }
    ensures sets { HaveRoom (nodes_of board.now) sets.new }
    ensures ready { IsReady (setting_of board.now) values.new waits.new }
{
    for node in order {
        if is_waiting(waits, *node) {
            look(board, *node, values, sets, waits);
        }
    }
}

/// Looks at what waits, where the setting has an order, at these nodes in turn. Says whether all is settled then, as it
/// is if the nodes are in order.
pub(crate) fn settle_in_order(
    board: &Board<'_>,
    has_order: bool,
    order: &[u32],
    values: &mut [Trit],
    sets: &mut Sets,
    waits: &mut [bool],
) -> bool
    requires moment { IsMoment board.now values.old }
    requires sets { HaveRoom (nodes_of board.now) sets.old }
    requires waits { length waits.old ≡ nodes_of board.now }
    requires ready { IsReady (setting_of board.now) values.old waits.old }
    requires order { IsTrue has_order → HasOrder (setting_of board.now) }
    ensures sets { HaveRoom (nodes_of board.now) sets.new }
    ensures settled { IsTrue result → IsSettled (setting_of board.now) (value_at values.new) }
{
    ordered_settings_settle();
    if !has_order {
        return false;
    }
    scan(board, order, values, sets, waits);
    is_none_waiting(waits)
}
