//! The nodes of pads, by which each setting is driven.

ghost use Rattle.std.specs.Prelude.{◌≡◌, ℕ, Option, IfOk, IfErr, length, replicate, None, flat_map, ◌++◌, ◌<◌, ◌≤◌};
ghost use Rattle.std.specs.Prelude.{All};
ghost use Rattle.std.specs.List.{AllZip};
ghost use Rattle.mp_base.specs.declared.value.Trit.{Trit as TritValue};
ghost use Rattle.mp_base.specs.declared.refusal.Refusal.TheVariants as refusals;
ghost use Rattle.mp_base.specs.declared.refusal.Spot.TheVariants as spots;
ghost use Rattle.switch_net.specs.Breaks.{MeetsDriver, broken};
ghost use Rattle.switch_net.specs.Pads.{driver_labels, chip_labels};
ghost use Rattle.clock_run.specs.Driving.{IsDriven, AreDriven, AreSet};
ghost use Rattle.clock_run.specs.Settings.{phases_of, levels};
ghost use Rattle.clock_run.specs.Plan.{IsPlan};
ghost use Rattle.clock_run.specs.Refused.{IsRefused};

use crate::drive::{drive_levels, drive_words};
use crate::labels::{add_pads, driver_labels};
use crate::owners::driven_twice;
use crate::resolve::resolve;
use crate::setting::Setting;
use crate::split::split;
use mp_base::{Broken, Family, Inputs, List, Name, Pads, Refusal, Rule, Spot, Trit};
use std::alloc::Global;
use switch_net::Network;

/// The nodes of power, ground and phases, and those of the bits of pads.
#[derive(Drop)]
pub(crate) struct Plan {
    pub supplies: List<u32>,
    pub inputs: List<List<u32>>,
    pub outputs: List<List<u32>>,
}

/// Rule N3, broken by the label at an offset.
fn driven_at(offset: u64) -> Refusal
    ensures { result ≡ refusals.Broken (broken 3 (spots.Offset offset)) }
{
    Refusal::Broken(Broken {
        rule: Rule {
            family: Family::N,
            number: 3,
        },
        spot: Spot::Offset(offset),
    })
}

/// The plan by the labels of a chip with these pads, of which the first so many are those of drivers, on different
/// nodes; or the first label that is missing.
fn resolved_plan(
    alloc: Global,
    network: &Network,
    pads: &Pads,
    labels: &[Name],
    driver_count: usize,
) -> Result<Plan, Refusal>
    requires labels { labels.now ≡ chip_labels pads.now }
    requires drivers { driver_count ≡ length (driver_labels pads.now.inputs) }
    requires apart { (i : ℕ) → ¬ MeetsDriver (driver_labels pads.now.inputs) network.now.tags i }
    ensures ok { IfOk result (λ p. IsPlan network.now pads.now p.supplies p.inputs p.outputs) }
    ensures err { IfErr result (IsRefused network.now pads.now) }
{
    let all = resolve(alloc, network, labels)?;
    let nodes = all.as_slice();
    let inputs = pads.inputs.as_slice();
    let outputs = pads.outputs.as_slice();
    Ok(Plan {
        supplies: List::from_vec(nodes[..5].to_vec(alloc)?),
        inputs: split(alloc, inputs, &nodes[5..driver_count])?,
        outputs: split(alloc, outputs, &nodes[driver_count..])?,
    })
}

impl Plan {
    /// The plan of a network that has these pads, or the first rule that is broken.
    pub(crate) fn new(alloc: Global, network: &Network, pads: &Pads) -> Result<Plan, Refusal>
        ensures ok { IfOk result (λ p. IsPlan network.now pads.now p.supplies p.inputs p.outputs) }
        ensures err { IfErr result (IsRefused network.now pads.now) }
    {
        let inputs = pads.inputs.as_slice();
        let outputs = pads.outputs.as_slice();
        let mut labels = driver_labels(alloc, inputs)?;
        let driver_count = labels.len();
        if let Some(offset) = driven_twice(alloc, network, labels.as_slice())? {
            return Err(driven_at(offset));
        }
        add_pads(alloc, &mut labels, outputs)?;
        resolved_plan(alloc, network, pads, labels.as_slice(), driver_count)
    }

    /// Writes what drives each node in a setting.
    pub(crate) fn drive(&self, setting: Setting, inputs: &Inputs, drive: &mut [Option<Trit>])
        requires five { length self.now.supplies ≡ 5 }
        requires as_many { length inputs.now ≡ length self.now.inputs }
        requires few { All (λ ns. length ns ≤ 64) self.now.inputs }
        requires supplies_inside { All (λ n. n < length drive.old) self.now.supplies }
        requires inputs_inside { All (λ ns. All (λ n. n < length drive.old) ns) self.now.inputs }
        ensures { (driver : ℕ → Option TritValue) → AllZip (IsDriven driver) self.now.supplies
            (levels (phases_of setting)) → AllZip (AreDriven driver) self.now.inputs inputs.now
            → AreSet driver (self.now.supplies ++ flat_map (λ ns. ns) self.now.inputs)
            (replicate (length drive.old) None) drive.new }
    {
        drive.fill(None);
        drive_levels(self.supplies.as_slice(), &setting.levels(), drive);
        drive_words(self.inputs.as_slice(), inputs.as_slice(), drive);
    }
}
