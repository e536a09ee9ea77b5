//! Adds an operator to the net of a slice.

ghost use Rattle.std.specs.Prelude.{◌≡◌, ◌<◌, ◌+◌, ◌*◌, ◌^◌, ◌++◌, [], ◌∷◌, All, IfOk, OnOk, true, length, map};
ghost use Rattle.nor_net.specs.Shape.{gate_inputs, net_limit};
ghost use Rattle.nor_net.specs.declared.net.Part.TheVariants.{Gate};
ghost use Rattle.organelles.specs.Computing.{ChainIn, Computes, IsBuilt, first_of, last_of};
ghost use Rattle.organelles.specs.Pairs.{inputs_of};
ghost use Rattle.organelles.specs.Tables.{gates_from, is_ordered, most_inputs, most_nets, net_at, place};

use crate::slices::{Chain, Organelle, Ports, SliceNet};
use crate::table::{Joint, gates, joint_of, result_number};
use mp_base::NoMemory;
use nor_net::{Net, NetId};
use std::alloc::Global;

// The net of a number of the table.
fn net_of(number: u8, a: NetId, b: NetId, end: NetId, first: u32) -> NetId
    requires { first + number < 2 ^ 32 }
    ensures { result ≡ net_at (place a b end.0 first number) }
{
    match number {
        0 => a,
        1 => b,
        2 => end,
        _ => NetId(first + (number as u32 - 3)),
    }
}

// Adds one gate of the table.
fn add_gate(
    alloc: Global,
    net: &mut Net,
    pair: (u8, u8),
    a: NetId,
    b: NetId,
    end: NetId,
    first: u32,
) -> Result<(), NoMemory>
    requires left { place a b end.0 first pair.0 < length net.old }
    requires right { place a b end.0 first pair.1 < length net.old }
    requires few { first + 256 < 2 ^ 32 }
    requires room { length net.old + 1 < net_limit }
    requires inputs_room { gate_inputs net.old + 2 < net_limit }
    ensures { OnOk result
        (net.new ≡ net.old ++ Gate (map (λ j. net_at (place a b end.0 first j)) (inputs_of pair)) ∷ []) }
{
    let x = net_of(pair.0, a, b, end, first);
    if pair.0 == pair.1 {
        net.gate(alloc, &[x])?;
    } else {
        let y = net_of(pair.1, a, b, end, first);
        net.gate(alloc, &[x, y])?;
    }
    Ok(())
}

// Adds the gates of the table.
fn add_gates(
    alloc: Global,
    net: &mut Net,
    gates: &[(u8, u8)],
    a: NetId,
    b: NetId,
    end: NetId,
) -> Result<(), NoMemory>
    requires ordered { is_ordered 3 (map inputs_of gates.now) ≡ true }
    requires a_in { a.0 < length net.old }
    requires b_in { b.0 < length net.old }
    requires end_in { end.0 < length net.old }
    requires room { length net.old + length gates.now < net_limit }
    requires inputs_room { gate_inputs net.old + 2 * length gates.now < net_limit }
    ensures { OnOk result (net.new ≡ net.old ++ gates_from a b end.0 (length net.old) (map inputs_of gates.now)) }
{
    let first = net.len();
    for pair in gates {
        add_gate(alloc, net, *pair, a, b, end, first)?;
    }
    Ok(())
}

// Adds a chain at the end.
fn push_chain(slices: &mut SliceNet, chain: Chain) -> Result<(), NoMemory>
    ensures { OnOk result (slices.new ≡ record slices.old { chains = slices.old.chains ++ chain ∷ [] }) }
{
    match slices.chains.push(chain) {
        Ok(()) => Ok(()),
        Err(_) => Err(NoMemory),
    }
}

// Adds the nets of an operator on these operands.
fn add_operator(
    alloc: Global,
    op: Organelle,
    a: NetId,
    b: NetId,
    slices: &mut SliceNet,
) -> Result<Ports, NoMemory>
    requires a_in { a.0 < length slices.old.net }
    requires b_in { b.0 < length slices.old.net }
    requires room { length slices.old.net + most_nets < net_limit }
    requires inputs_room { gate_inputs slices.old.net + most_inputs < net_limit }
    ensures { IfOk result (IsBuilt op a b slices.old slices.new) }
{
    let table = gates(op);
    let number = result_number(op);
    match joint_of(op) {
        Joint::Alone => {
            let first = slices.net.len();
            add_gates(alloc, &mut slices.net, table, a, b, b)?;
            Ok(Ports {
                result: net_of(number, a, b, b, first),
            })
        }
        Joint::Upward(from) => {
            let end = slices.net.input()?;
            let first = slices.net.len();
            add_gates(alloc, &mut slices.net, table, a, b, end)?;
            let from = net_of(from, a, b, end, first);
            push_chain(slices, Chain::Up { from, to: end })?;
            Ok(Ports {
                result: net_of(number, a, b, end, first),
            })
        }
        Joint::Downward(from) => {
            let end = slices.net.input()?;
            let first = slices.net.len();
            add_gates(alloc, &mut slices.net, table, a, b, end)?;
            let from = net_of(from, a, b, end, first);
            push_chain(slices, Chain::Down { from, to: end })?;
            Ok(Ports {
                result: net_of(number, a, b, end, first),
            })
        }
    }
}

/// Adds the nets of an operator at the end, with its chain. The operands are one or two; one stands for both.
///
/// # Errors
///
/// `NoMemory`: then some of the nets may have been added.
pub fn build(
    alloc: Global,
    op: Organelle,
    operands: &[NetId],
    slices: &mut SliceNet,
) -> Result<Ports, NoMemory>
    requires some { 0 < length operands.now }
    requires operands { All (λ j. j.0 < length slices.old.net) operands.now }
    requires chains { All (ChainIn (length slices.old.net)) slices.old.chains }
    requires room { length slices.old.net + most_nets < net_limit }
    requires inputs_room { gate_inputs slices.old.net + most_inputs < net_limit }
    ensures built { IfOk result (IsBuilt op (first_of operands.now) (last_of operands.now) slices.old slices.new) }
    ensures computes { IfOk result (λ p.
        Computes op (first_of operands.now) (last_of operands.now) slices.new (length slices.old.net) p.result) }
{
    let a = operands[0];
    let b = operands[operands.len() - 1];
    add_operator(alloc, op, a, b, slices)
}
