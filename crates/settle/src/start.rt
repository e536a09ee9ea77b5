//! How a settling starts: driven nodes get their values, and what these may change waits.

ghost use Rattle.std.specs.Prelude.{◌≡◌, ◌<◌, ◌↔◌, ℕ, Some, None, IsTrue, length};
ghost use Rattle.mp_base.specs.declared.value.Trit.{Trit as TritValue};
ghost use Rattle.node_clusters.specs.Values.{IsMarked};
ghost use Rattle.switch_net.specs.Values.{value_at, driver_at};
ghost use Rattle.node_clusters.specs.Board.{setting_of, nodes_of, IsMoment};
ghost use Rattle.settle.specs.Start.{IsReady, Redrives, RedrivesFirst};
ghost use Rattle.settle.specs.Sizes.{AreAtRest};

use crate::wake::{wake, wake_beside};
use mp_base::Trit;
use node_clusters::Board;
use settle_laws::laws::ordered_settings_settle;
use switch_net::laws::nodes_are_given;

/// Lets all undriven nodes wait.
fn wake_all(drive: &[Option<Trit>], values: &mut [Trit], waits: &mut [bool])
    requires values { length drive.now ≡ length values.old }
    requires waits { length drive.now ≡ length waits.old }
    ensures driven { (n : ℕ) (t : TritValue) → driver_at drive.now n ≡ Some t → value_at values.new n ≡ t }
    ensures undriven { (n : ℕ) → IsMarked waits.new n → driver_at drive.now n ≡ None }
    ensures waiting { (n : ℕ) → n < length drive.now → driver_at drive.now n ≡ None → IsMarked waits.new n }
{
    for node in 0..drive.len() {
        match drive[node] {
            Some(value) => {
                values[node] = value;
                waits[node] = false;
            }
            None => waits[node] = true,
        }
    }
}

/// Starts from any values.
fn restart(board: &Board<'_>, values: &mut [Trit], waits: &mut [bool])
    requires moment { IsMoment board.now values.old }
    requires waits { length waits.old ≡ nodes_of board.now }
    ensures { IsReady (setting_of board.now) values.new waits.new }
{
    nodes_are_given();
    wake_all(board.drive, values, waits);
}

fn is_same(one: Option<Trit>, other: Option<Trit>) -> bool
    ensures { IsTrue result ↔ (one ≡ other) }
{
    match (one, other) {
        (None, None) => true,
        (Some(one), Some(other)) => one == other,
        _ => false,
    }
}

/// Gives a node another driver.
fn change(board: &Board<'_>, node: u32, values: &mut [Trit], waits: &mut [bool])
    requires moment { IsMoment board.now values.old }
    requires node { node < nodes_of board.now }
    requires waits { length waits.old ≡ nodes_of board.now }
    ensures { Redrives board.now.network.now.channels board.now.gated.now board.now.drive.now node values.old
        values.new waits.old waits.new }
{
    wake_beside(board, node, waits);
    match board.drive[node as usize] {
        None => waits[node as usize] = true,
        Some(value) => {
            values[node as usize] = value;
            wake(board.gated[node as usize].as_slice(), board.drive, waits);
        }
    }
}

/// Gives the nodes whose drivers are others than the last ones those.
fn change_all(board: &Board<'_>, last: &[Option<Trit>], values: &mut [Trit], waits: &mut [bool])
    requires moment { IsMoment board.now values.old }
    requires waits { length waits.old ≡ nodes_of board.now }
    requires last { length last.now ≡ nodes_of board.now }
    requires none { (n : ℕ) → ¬ IsMarked waits.old n }
    requires driven { (n : ℕ) (t : TritValue) → driver_at last.now n ≡ Some t → value_at values.old n ≡ t }
    ensures { RedrivesFirst board.now.network.now.channels board.now.gated.now last.now board.now.drive.now
        (nodes_of board.now) values.old values.new waits.new }
{
    for node in 0..board.network.nodes {
        if !is_same(board.drive[node as usize], last[node as usize]) {
            change(board, node, values, waits);
        }
    }
}

/// Starts from values that were settled under the last drivers.
fn redrive(board: &Board<'_>, last: &[Option<Trit>], values: &mut [Trit], waits: &mut [bool])
    requires moment { IsMoment board.now values.old }
    requires waits { length waits.old ≡ nodes_of board.now }
    requires last { length last.now ≡ nodes_of board.now }
    requires none { (n : ℕ) → ¬ IsMarked waits.old n }
    requires rest { AreAtRest board.now.network.now last.now values.old }
    requires before { board.now.before.now ≡ values.old }
    ensures { IsReady (setting_of board.now) values.new waits.new }
{
    ordered_settings_settle();
    change_all(board, last, values, waits);
}

/// Starts from the values that there are: all undriven nodes wait, or those alone that other drivers may change.
pub(crate) fn start(
    board: &Board<'_>,
    is_at_rest: bool,
    last: &[Option<Trit>],
    values: &mut [Trit],
    waits: &mut [bool],
)
    requires moment { IsMoment board.now values.old }
    requires waits { length waits.old ≡ nodes_of board.now }
    requires last { length last.now ≡ nodes_of board.now }
    requires rest { IsTrue is_at_rest → AreAtRest board.now.network.now last.now values.old }
    requires before { board.now.before.now ≡ values.old }
    ensures { IsReady (setting_of board.now) values.new waits.new }
{
    if is_at_rest {
        waits.fill(false);
        redrive(board, last, values, waits);
    } else {
        restart(board, values, waits);
    }
}
