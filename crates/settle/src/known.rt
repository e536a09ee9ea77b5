//! Settling by what is known: in an order, from the values before, or else by events.

ghost use Rattle.std.specs.Prelude.{◌≡◌, IsTrue, length};
ghost use Rattle.switch_net.specs.Settled.{IsSettled};
ghost use Rattle.switch_net.specs.Values.{value_at};
ghost use Rattle.node_clusters.specs.Board.{setting_of, nodes_of, IsMoment};
ghost use Rattle.node_clusters.specs.Rooms.{HaveRoom};
ghost use Rattle.settle_order.specs.Orders.{HasOrder};
ghost use Rattle.settle.specs.Sizes.{AreAtRest};

use crate::scan::settle_in_order;
use crate::start::start;
use mp_base::Trit;
use node_clusters::{Board, Sets};
use settle_events::{Queue, solve};

/// Whether the values are settled under the last drivers, and the nodes in order, where there is one.
#[derive(Clone, Copy)]
pub(crate) struct Known<'a> {
    pub is_at_rest: bool,
    pub last: &'a [Option<Trit>],
    pub has_order: bool,
    pub order: &'a [u32],
}

// Sets the values to the settled ones where they aren't yet.
fn solve_unless(
    is_settled: bool,
    board: &Board<'_>,
    values: &mut [Trit],
    sets: &mut Sets,
    looked: &mut [bool],
    queue: &mut Queue,
)
    requires settled { IsTrue is_settled → IsSettled (setting_of board.now) (value_at values.old) }
    requires moment { IsMoment board.now values.old }
    requires sets { HaveRoom (nodes_of board.now) sets.old }
    requires looked { length looked.old ≡ nodes_of board.now }
    ensures sets { HaveRoom (nodes_of board.now) sets.new }
    ensures settled { IsSettled (setting_of board.now) (value_at values.new) }
{
    if !is_settled {
        solve(board, values, sets, looked, queue);
    }
}

/// Sets the values to the settled ones.
pub(crate) fn settle_values(
    board: &Board<'_>,
    known: &Known<'_>,
    values: &mut [Trit],
    sets: &mut Sets,
    marks: &mut [bool],
    queue: &mut Queue,
)
    requires moment { IsMoment board.now values.old }
    requires sets { HaveRoom (nodes_of board.now) sets.old }
    requires marks { length marks.old ≡ nodes_of board.now }
    requires last { length known.now.last.now ≡ nodes_of board.now }
    requires rest { IsTrue known.now.is_at_rest → AreAtRest board.now.network.now known.now.last.now values.old }
    requires before { board.now.before.now ≡ values.old }
    requires order { IsTrue known.now.has_order → HasOrder (setting_of board.now) }
    ensures sets { HaveRoom (nodes_of board.now) sets.new }
    ensures settled { IsSettled (setting_of board.now) (value_at values.new) }
{
    start(board, known.is_at_rest, known.last, values, marks);
    let is_settled = settle_in_order(board, known.has_order, known.order, values, sets, marks);
    solve_unless(is_settled, board, values, sets, marks, queue);
}
