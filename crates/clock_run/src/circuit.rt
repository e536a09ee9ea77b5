//! A network with pads that runs.

ghost use Rattle.std.specs.Prelude.{◌≡◌, ◌<◌, ◌^◌, IfOk, IfErr, length, replicate};
ghost use Rattle.std.specs.List.{AllZip};
ghost use Rattle.mp_base.specs.declared.value.Trit.TheVariants.{X};
ghost use Rattle.mp_base.specs.declared.value.TritWord.{TritWord as TritWordValue};
ghost use Rattle.mp_base.specs.declared.pad.Pad.{Pad as PadValue};
ghost use Rattle.switch_net.specs.Values.{value_at};
ghost use Rattle.mp_base.specs.PadBits.{Fit, bit_count};
ghost use Rattle.mp_base.specs.Refuses.{IsJudged};
ghost use Rattle.switch_net.specs.Clock.{SettlesTo, Shows, IsClock, drives};
ghost use Rattle.stimulus.specs.Bits.{trits_of};
ghost use Rattle.clock_run.specs.Settings.{phases_of};
ghost use Rattle.clock_run.specs.Refused.{IsRefused, OfCircuit};
ghost use Rattle.clock_run.specs.Circuit.{IsReady};

use crate::plan::Plan;
use crate::setting::Setting;
use crate::word::word_of;
use mp_base::{Inputs, Pads, Refusal, Trit, TritOutputs};
use settle::Settler;
use std::alloc::Global;
use std::marker::Model;
use switch_net::Network;
use switch_net::laws::circuits_run;

/// The plan of a network with pads, and room for what drives each node.
#[derive(Drop)]
struct Ready {
    plan: Plan,
    drive: Vec<Option<Trit>>,
}

impl Ready {
    fn new(alloc: Global, network: &Network, pads: &Pads) -> Result<Ready, Refusal>
        ensures ok { IfOk result (λ r. IsReady network.now pads.now r.plan r.drive.items) }
        ensures err { IfErr result (IsRefused network.now pads.now) }
    {
        let plan = Plan::new(alloc, network, pads)?;
        let drive = vec![in alloc; None; network.nodes as usize]?;
        Ok(Ready { plan, drive })
    }
}

/// A network that has its pads, with a value at each node, and all the memory that a clock takes.
#[derive(Drop)]
pub struct Circuit<'a> {
    pads: &'a Pads,
    settler: Settler,
    plan: Plan,
    drive: Vec<Option<Trit>>,
}

impl<'a> Model for Circuit<'a> {
    ghost use Rattle.std.specs.Prelude.{◌≡◌, length};
    ghost use Rattle.clock_run.specs.Circuit.{Running, IsReady};

    ghost Value = { Running };

    ghost view = { λ s. record { network = s.settler.network; pads = s.pads.now; values = s.settler.values } };

    ghost invariant = { λ s. IsReady s.settler.network s.pads.now s.plan s.drive.items };
}

impl<'a> Circuit<'a> {
    /// A network with pads, all of whose nodes are X. It is dropped where it is refused: by rule N3 where a node has
    /// two drivers, or else by N4 where a label of a pad, of power, of ground or of a phase is missing.
    pub fn open(alloc: Global, network: Network, pads: &'a Pads) -> Result<Circuit<'a>, Refusal>
        ensures network { IfOk result (λ c. c.network ≡ network) }
        ensures pads { IfOk result (λ c. c.pads ≡ pads.now) }
        ensures unknown { IfOk result (λ c. c.values ≡ replicate network.nodes X) }
        ensures judged { IsJudged (OfCircuit network pads.now) result }
    {
        let ready = Ready::new(alloc, &network, pads)?;
        let settler = Settler::open(alloc, network)?;
        Ok(Circuit {
            pads,
            settler,
            plan: ready.plan,
            drive: ready.drive,
        })
    }

    /// The network.
    pub fn network(&self) -> &Network
        ensures { result.now ≡ self.now.network }
    {
        self.settler.network()
    }

    /// The pads.
    pub fn pads(&self) -> &Pads
        ensures { result.now ≡ self.now.pads }
    {
        self.pads
    }

    /// The value of each node.
    pub fn values(&self) -> &[Trit]
        ensures same { result.now ≡ self.now.values }
        ensures sized { length result.now ≡ self.now.network.nodes }
    {
        self.settler.values()
    }

    /// Settles the network in one setting.
    fn set(&mut self, setting: Setting, inputs: &Inputs)
        requires { Fit self.old.pads.inputs inputs.now }
        ensures network { self.new.network ≡ self.old.network }
        ensures pads { self.new.pads ≡ self.old.pads }
        ensures sized { length self.new.values ≡ self.old.network.nodes }
        ensures settled { SettlesTo self.old.network (drives (phases_of setting) self.old.pads.inputs inputs.now)
            (value_at self.old.values) (value_at self.new.values) }
    {
        circuits_run();
        self.plan.drive(setting, inputs, &mut self.drive);
        self.settler.settle(&self.drive);
    }

    /// Reads the words of the output pads.
    fn show(&self, outputs: &mut TritOutputs)
        requires { length outputs.old ≡ length self.now.pads.outputs }
        ensures shown { AllZip (Shows self.now.network (value_at self.now.values)) self.now.pads.outputs
            (trits_of self.now.pads.outputs outputs.new) }
        ensures narrow { AllZip (λ (pad : PadValue) (word : TritWordValue). word.known < 2 ^ bit_count pad.width)
            self.now.pads.outputs outputs.new }
    {
        let values = self.settler.values();
        let pads = self.plan.outputs.as_slice();
        for k in 0..pads.len() {
            outputs.put(k, word_of(pads[k].as_slice(), values));
        }
    }

    /// Runs one clock. Each input pad has a value within its width. The output pads show the bits that they have after
    /// the second of the six settings, each in a word that is 0 past its width.
    pub fn clock(&mut self, inputs: &Inputs, outputs: &mut TritOutputs)
        requires fit { Fit self.old.pads.inputs inputs.now }
        requires as_many { length outputs.old ≡ length self.old.pads.outputs }
        ensures network { self.new.network ≡ self.old.network }
        ensures pads { self.new.pads ≡ self.old.pads }
        ensures sized { length self.new.values ≡ self.old.network.nodes }
        ensures clock { IsClock self.old.network self.old.pads inputs.now (value_at self.old.values)
            (trits_of self.old.pads.outputs outputs.new) (value_at self.new.values) }
        ensures narrow { AllZip (λ (pad : PadValue) (word : TritWordValue). word.known < 2 ^ bit_count pad.width)
            self.old.pads.outputs outputs.new }
    {
        self.set(Setting::PhiC, inputs);
        self.set(Setting::Quiet, inputs);
        self.show(outputs);
        self.set(Setting::PhiA, inputs);
        self.set(Setting::Quiet, inputs);
        self.set(Setting::PhiB, inputs);
        self.set(Setting::Quiet, inputs);
    }
}
