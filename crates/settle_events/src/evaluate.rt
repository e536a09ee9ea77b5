//! One look at a cluster: its nodes get what they are given.

ghost use Rattle.std.specs.Prelude.{◌≡◌, ◌≢◌, ◌<◌, ◌≤◌, ◌↔◌, ◌⊎◌, ℕ, None, IsTrue, IsFalse, Contains, length};
ghost use Rattle.mp_base.specs.declared.value.Trit.TheVariants.{X};
ghost use Rattle.node_clusters.specs.Values.{IsMarked};
ghost use Rattle.switch_net.specs.Values.{value_at, driver_at};
ghost use Rattle.node_clusters.specs.Board.{setting_of, nodes_of, IsMoment};
ghost use Rattle.node_clusters.specs.Rooms.{HaveRoom};
ghost use Rattle.settle_events.specs.Climb.{unknown, Steps, IsStuck, Writes};

use crate::queue::Queue;
use mp_base::Trit;
use node_clusters::{Board, Sets};
use node_set::NodeSet;

/// Lets what a node gates wait.
fn tell(board: &Board<'_>, node: u32, queue: &mut Queue) {
    if let Some(ends) = board.gated.get(node as usize) {
        for end in ends.as_slice() {
            queue.push(*end);
        }
    }
}

fn is_unknown(value: Trit) -> bool
    ensures { IsTrue result ↔ (value ≡ X) }
{
    matches!(value, Trit::X)
}

/// Gives the nodes at X among these a value. Says whether there was one.
fn write(
    board: &Board<'_>,
    given: &NodeSet,
    value: Trit,
    values: &mut [Trit],
    queue: &mut Queue,
) -> bool
    requires room { given.now.room ≡ length values.old }
    requires value { value ≢ X }
    ensures writes { Writes given.now.members value (value_at values.old) (value_at values.new) }
    ensures more { IsTrue result → unknown values.new < unknown values.old }
    ensures same { IsFalse result → values.new ≡ values.old }
    ensures none { IsFalse result → (n : ℕ) → Contains given.now.members n → value_at values.old n ≢ X }
{
    let mut changed = false;
    for node in given.as_slice() {
        if is_unknown(values[*node as usize]) {
            values[*node as usize] = value;
            changed = true;
            tell(board, *node, queue);
        }
    }
    changed
}

fn mark(set: &NodeSet, marks: &mut [bool])
    requires { set.now.room ≡ length marks.old }
    ensures { (n : ℕ) → IsMarked marks.new n → IsMarked marks.old n ⊎ Contains set.now.members n }
{
    for node in set.as_slice() {
        marks[*node as usize] = true;
    }
}

/// Gives the cluster of a node what it is given, and marks its nodes. Says whether a value changed.
pub(crate) fn evaluate(
    board: &Board<'_>,
    node: u32,
    values: &mut [Trit],
    sets: &mut Sets,
    looked: &mut [bool],
    queue: &mut Queue,
) -> bool
    requires moment { IsMoment board.now values.old }
    requires node { node < nodes_of board.now }
    requires undriven { driver_at board.now.drive.now node ≡ None }
    requires sets { HaveRoom (nodes_of board.now) sets.old }
    requires looked { length looked.old ≡ nodes_of board.now }
    ensures sets { HaveRoom (nodes_of board.now) sets.new }
    ensures steps { Steps (setting_of board.now) (value_at values.old) (value_at values.new) }
    ensures more { IsTrue result → unknown values.new < unknown values.old }
    ensures fewer { unknown values.new ≤ unknown values.old }
    ensures same { IsFalse result → values.new ≡ values.old }
    ensures stuck { IsFalse result → IsStuck (setting_of board.now) (value_at values.old) node }
    ensures marked { IsFalse result → (n : ℕ) → IsMarked looked.new n → IsMarked looked.old n
        ⊎ IsStuck (setting_of board.now) (value_at values.old) n }
{
    sets.fill(board, values, node);
    mark(&sets.cluster, looked);
    queue.see(&sets.cluster);
    let low = write(board, &sets.zeros, Trit::Zero, values, queue);
    let high = write(board, &sets.ones, Trit::One, values, queue);
    low || high
}
