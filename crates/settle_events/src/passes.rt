//! The least solution, by looks at clusters until nothing changes.

ghost use Rattle.std.specs.Prelude.{◌≡◌, ◌<◌, ◌≤◌, ◌↔◌, ℕ, None, IsTrue, IsFalse, length, unwrap_or};
ghost use Rattle.mp_base.specs.declared.value.Trit.TheVariants.{X};
ghost use Rattle.switch_net.specs.Settled.{IsSettled};
ghost use Rattle.switch_net.specs.Values.{value_at, driver_at};
ghost use Rattle.node_clusters.specs.Board.{setting_of, nodes_of, IsMoment};
ghost use Rattle.node_clusters.specs.Rooms.{HaveRoom};
ghost use Rattle.settle_events.specs.Climb.{unknown, Climbs, IsStuck};

use crate::evaluate::evaluate;
use crate::queue::Queue;
use mp_base::Trit;
use node_clusters::{Board, Sets};
use switch_net::laws::nodes_are_given;

/// Sets driven nodes to what drives them, and the others to X.
fn start(drive: &[Option<Trit>], values: &mut [Trit])
    requires { length drive.now ≡ length values.old }
    ensures { (n : ℕ) → value_at values.new n ≡ unwrap_or (driver_at drive.now n) X }
{
    for n in 0..values.len() {
        values[n] = match drive[n] {
            Some(value) => value,
            None => Trit::X,
        };
    }
}

/// Whether a node is undriven and X.
fn is_open(board: &Board<'_>, values: &[Trit], node: u32) -> bool
    requires moment { IsMoment board.now values.now }
    requires node { node < nodes_of board.now }
    ensures { IsTrue result ↔ ((driver_at board.now.drive.now node ≡ None) × (value_at values.now node ≡ X)) }
{
    match (board.drive[node as usize], values[node as usize]) {
        (None, Trit::X) => true,
        _ => false,
    }
}

/// Looks at the nodes that wait, and at those that wait after them, while they are X.
fn drain(
    board: &Board<'_>,
    values: &mut [Trit],
    sets: &mut Sets,
    looked: &mut [bool],
    queue: &mut Queue,
)
    requires moment { IsMoment board.now values.old }
    requires sets { HaveRoom (nodes_of board.now) sets.old }
    requires looked { length looked.old ≡ nodes_of board.now }
    requires climbs { Climbs (setting_of board.now) (value_at values.old) }
    ensures sets { HaveRoom (nodes_of board.now) sets.new }
    ensures climbs { Climbs (setting_of board.now) (value_at values.new) }
    ensures fewer { unknown values.new ≤ unknown values.old }
{
    nodes_are_given();
    for _round in 0..u64::MAX {
        match queue.pop() {
            None => return,
            Some((node, waits)) => {
                if waits && node < board.network.nodes && is_open(board, values, node) {
                    evaluate(board, node, values, sets, looked, queue);
                }
            }
        }
    }
}

/// Looks at each node that is X. Says whether a value changed.
fn pass(
    board: &Board<'_>,
    values: &mut [Trit],
    sets: &mut Sets,
    looked: &mut [bool],
    queue: &mut Queue,
) -> bool
    requires moment { IsMoment board.now values.old }
    requires sets { HaveRoom (nodes_of board.now) sets.old }
    requires looked { length looked.old ≡ nodes_of board.now }
    requires climbs { Climbs (setting_of board.now) (value_at values.old) }
    ensures sets { HaveRoom (nodes_of board.now) sets.new }
    ensures climbs { Climbs (setting_of board.now) (value_at values.new) }
    ensures more { IsTrue result → unknown values.new < unknown values.old }
    ensures stuck { IsFalse result → (n : ℕ) → n < nodes_of board.now
        → IsStuck (setting_of board.now) (value_at values.new) n }
{
    nodes_are_given();
    looked.fill(false);
    let mut changed = false;
    for node in 0..board.network.nodes {
        if is_open(board, values, node) && !looked[node as usize] {
            if evaluate(board, node, values, sets, looked, queue) {
                changed = true;
                drain(board, values, sets, looked, queue);
            }
        }
    }
    changed
}

/// Sets the values to the settled ones, from unknown ones.
pub fn solve(
    board: &Board<'_>,
    values: &mut [Trit],
    sets: &mut Sets,
    looked: &mut [bool],
    queue: &mut Queue,
)
    requires moment { IsMoment board.now values.old }
    requires sets { HaveRoom (nodes_of board.now) sets.old }
    requires looked { length looked.old ≡ nodes_of board.now }
    ensures sets { HaveRoom (nodes_of board.now) sets.new }
    ensures settled { IsSettled (setting_of board.now) (value_at values.new) }
{
    nodes_are_given();
    start(board.drive, values);
    loop {
        let changed = pass(board, values, sets, looked, queue);
        if !changed {
            return;
        }
    }
}
