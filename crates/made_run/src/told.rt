//! What is told of a run.

ghost use Rattle.std.specs.Prelude.{◌≡◌, ◌++◌, ◌<◌, ◌^◌, [], length, IfOk, OnOk};
ghost use Rattle.switch_net.specs.Values.{value_at};
ghost use Rattle.switch_net.specs.declared.network.Network.{Network as NetworkValue};
ghost use Rattle.switch_net.specs.Breaks.{HasPads};
ghost use Rattle.mask_net.specs.SizeLine.{last_line, size_text};
ghost use Rattle.made_run.specs.Summary.{IsSummary, summary_text};
ghost use Rattle.made_run.specs.Summing.{IsFresh};

use crate::run::run_along;
use crate::summing::Summing;
use cif_emit::Text;
use mask_net::size_text;
use mp_base::{NoMemory, Trit, push_number};
use outside::Failed;
use replay_run::write_last_line;
use std::alloc::{AllocError, Global};
use stimulus::Stimulus;
use switch_net::Network;

// Puts the weight, the number of clocks and the sum at the end of a text.
fn push_summary(text: &mut Vec<u8>, weight: u32, sum: u64) -> Result<(), AllocError>
    ensures { OnOk result (text.new.items ≡ text.old.items ++ summary_text weight sum) }
{
    text.extend_from_slice(b"weight ")?;
    push_number(text, u64::from(weight))?;
    text.extend_from_slice(b"\nclocks 65\nsum ")?;
    push_number(text, sum)?;
    text.extend_from_slice(b"\n")
}

// The text of a run, by its sum, and by the size of its network and the values at its end.
fn text_of(
    alloc: Global,
    weight: u32,
    sum: u64,
    size: &[u8],
    values: &[Trit],
) -> Result<Vec<u8>, NoMemory>
    ensures { IfOk result (λ text. (net : NetworkValue) → size.now ≡ size_text net → length values.now ≡ net.nodes
        → text.items ≡ summary_text weight sum ++ last_line net (value_at values.now)) }
{
    let mut text = Text::new(alloc);
    push_summary(&mut text.bytes, weight, sum)?;
    match write_last_line(&mut text, size, values) {
        Ok(()) => Ok(text.bytes),
        Err(Failed) => Err(NoMemory),
    }
}

// The text of the run of a circuit that has run no clock along a stimulus, by the size of its network.
fn text_along(
    alloc: Global,
    weight: u32,
    size: &[u8],
    summing: &mut Summing<'_>,
    given: &Stimulus,
) -> Result<Vec<u8>, NoMemory>
    requires few_inputs { length given.now.pads.inputs < 2 ^ 32 }
    requires few_clocks { length given.now.clocks < 2 ^ 32 }
    requires fresh { IsFresh given.now.pads summing.old }
    requires size { size.now ≡ size_text summing.old.circuit.network }
    ensures { IfOk result (λ text. IsSummary weight summing.old.circuit.network given.now text.items) }
{
    run_along(alloc, summing, given)?;
    text_of(alloc, weight, summing.sum(), size, summing.values())
}

/// Runs the circuit of a network along a stimulus of 65 clocks from unknown values, and tells a weight, how many clocks
/// these are, the sum of what the first output showed in all clocks but the first, and the size line.
///
/// # Errors
///
/// Want of memory.
pub fn summary(
    alloc: Global,
    weight: u32,
    network: Network,
    given: &Stimulus,
) -> Result<Vec<u8>, NoMemory>
    requires few_inputs { length given.now.pads.inputs < 2 ^ 32 }
    requires clocks { length given.now.clocks ≡ 65 }
    requires has_pads { HasPads network given.now.pads }
    ensures { IfOk result (λ text. IsSummary weight network given.now text.items) }
{
    let size = size_text(alloc, &network)?;
    let mut summing = Summing::open(alloc, network, &given.pads)?;
    let text = text_along(alloc, weight, &size, &mut summing, given);
    drop(summing);
    text
}
