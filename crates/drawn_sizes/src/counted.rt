//! The size of a circuit at the end of its run, counted from the masks.

ghost use Rattle.std.specs.Prelude.{◌<◌, ◌^◌, IsTrue, length};

use mask_net::{network_of, size_text};
use mp_base::{List, Trit, push_number};
use outside_doubles::MemSink;
use sim_run::Simulation;
use std::alloc::{AllocError, Global};
use stimulus::{Stimulus, read_stimulus};
use switch_net::Network;

fn count(values: &[Trit], value: Trit) -> u64 {
    let mut count = 0u64;
    for one in values {
        if *one == value {
            count = count.wrapping_add(1);
        }
    }
    count
}

fn push_counts(line: &mut Vec<u8>, values: &[Trit]) -> Result<(), AllocError> {
    line.extend_from_slice(b" ones ")?;
    push_number(line, count(values, Trit::One))?;
    line.extend_from_slice(b" unknown ")?;
    push_number(line, count(values, Trit::X))
}

// Whether a stimulus has few inputs and few clocks.
fn is_small(given: &Stimulus) -> bool
    ensures inputs { IsTrue result → length given.now.pads.inputs < 2 ^ 32 }
    ensures clocks { IsTrue result → length given.now.clocks < 2 ^ 32 }
{
    given.pads.inputs.len() < 999 && given.clocks.len() < 9999
}

// A stimulus with pads of its own, if its text is short.
fn stimulus_of(alloc: Global, text: &[u8]) -> Option<Stimulus> {
    if text.len() > 9999 {
        return None;
    }
    read_stimulus(alloc, text, None).ok()
}

fn drawn(alloc: Global, masks: &[u8]) -> Option<Network> {
    network_of(alloc, Vec::from_slice(alloc, masks).ok()?).ok()
}

// Runs a circuit to the end of its stimulus.
fn run_to_end(alloc: Global, simulation: &mut Simulation<'_>) -> Option<()> {
    let mut out = MemSink::new(alloc, List::new(alloc));
    simulation.run(&mut out).ok()
}

// Runs a circuit to the end of its stimulus, and adds the counts of its nodes that are at 1 and at X then.
fn push_counts_of(
    alloc: Global,
    line: &mut Vec<u8>,
    simulation: &mut Simulation<'_>,
) -> Option<()> {
    run_to_end(alloc, simulation)?;
    push_counts(line, simulation.values()).ok()
}

// The same of a network, all of whose nodes are X at first.
fn push_counts_at_end(
    alloc: Global,
    line: &mut Vec<u8>,
    network: Network,
    given: &Stimulus,
) -> Option<()>
    requires inputs { length given.now.pads.inputs < 2 ^ 32 }
    requires clocks { length given.now.clocks < 2 ^ 32 }
{
    let mut simulation = Simulation::open(alloc, network, given).ok()?;
    let pushed = push_counts_of(alloc, line, &mut simulation);
    drop(simulation);
    pushed
}

// The size of a network, with these counts.
fn size_behind(alloc: Global, network: Network, given: &Stimulus) -> Option<Vec<u8>>
    requires inputs { length given.now.pads.inputs < 2 ^ 32 }
    requires clocks { length given.now.clocks < 2 ^ 32 }
{
    let mut line = size_text(alloc, &network).ok()?;
    push_counts_at_end(alloc, &mut line, network, given)?;
    Some(line)
}

// The same of the network of masks, if the stimulus is small.
fn size_along(alloc: Global, masks: &[u8], given: &Stimulus) -> Option<Vec<u8>> {
    if is_small(given) {
        size_behind(alloc, drawn(alloc, masks)?, given)
    } else {
        None
    }
}

// The same of the text of a stimulus.
fn size_at_end(alloc: Global, masks: &[u8], stimulus: &[u8]) -> Option<Vec<u8>> {
    let given = stimulus_of(alloc, stimulus)?;
    size_along(alloc, masks, &given)
}

// Whether a line may be such a size, of any circuit.
fn tells_size(line: &str) -> bool {
    line.starts_with("nodes ") && line.contains(" ones ")
}

/// Whether a line is the size of masks at the end of a stimulus.
pub fn is_size_at_end(alloc: Global, masks: &[u8], stimulus: &[u8], line: &str) -> bool {
    if !tells_size(line) {
        return false;
    }
    match size_at_end(alloc, masks, stimulus) {
        Some(size) => size.as_slice() == line.as_bytes(),
        None => false,
    }
}

// The counts before the first clock and at the end.
fn push_counts_around(
    alloc: Global,
    line: &mut Vec<u8>,
    simulation: &mut Simulation<'_>,
) -> Option<()> {
    push_counts(line, simulation.values()).ok()?;
    push_counts_of(alloc, line, simulation)
}

// The same of a network, all of whose nodes are X at first.
fn counts_behind(alloc: Global, network: Network, given: &Stimulus) -> Option<Vec<u8>>
    requires inputs { length given.now.pads.inputs < 2 ^ 32 }
    requires clocks { length given.now.clocks < 2 ^ 32 }
{
    let mut simulation = Simulation::open(alloc, network, given).ok()?;
    let mut line = Vec::new(alloc);
    let pushed = push_counts_around(alloc, &mut line, &mut simulation);
    drop(simulation);
    pushed?;
    Some(line)
}

// The same of the network of masks, if the stimulus is small.
fn counts_along(alloc: Global, masks: &[u8], given: &Stimulus) -> Option<Vec<u8>> {
    if is_small(given) {
        counts_behind(alloc, drawn(alloc, masks)?, given)
    } else {
        None
    }
}

/// How many nodes of masks are at 1 and unknown before the first clock of a stimulus, and at its end.
pub fn counts_around(alloc: Global, masks: &[u8], stimulus: &[u8]) -> Option<Vec<u8>> {
    let given = stimulus_of(alloc, stimulus)?;
    counts_along(alloc, masks, &given)
}
