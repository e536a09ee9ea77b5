//! What the slices have of operators and numbers, so that equal expressions share it.

ghost use Rattle.std.specs.Prelude.{◌≡◌, ◌≢◌, ℕ, None, Some, false, OnOk};
ghost use Rattle.mp_base.specs.declared.op.Op as ops;
ghost use Rattle.nor_net.specs.declared.net.NetId as net_id;
ghost use Rattle.datapath_sharing.specs.Sharing.{key_of, number_in, operator_in, same_key};

use mp_base::{NoMemory, Op};
use nor_net::NetId;
use std::alloc::Global;
use std::collections::HashMap;

// An operator, with the nets of its first operand and of its last.
type Key = (u8, u32, u32);

fn key(op: Op, first: NetId, last: NetId) -> Key
    ensures { result ≡ key_of op first last }
{
    (op as u8, first.0, last.0)
}

/// The nets of operators and of numbers.
#[derive(Drop)]
pub struct Built {
    operators: HashMap<Key, NetId>,
    numbers: HashMap<u64, NetId>,
}

impl Built {
    /// Nothing yet.
    pub fn new(alloc: Global) -> Built
        ensures operators { (op : ops.Op) (first last : net_id.NetId) → operator_in result op first last ≡ None }
        ensures numbers { (bits : ℕ) → number_in result bits ≡ None }
    {
        Built {
            operators: HashMap::new(alloc),
            numbers: HashMap::new(alloc),
        }
    }

    /// The result of an operator on these operands.
    pub fn operator(&self, op: Op, first: NetId, last: NetId) -> Option<NetId>
        ensures { result ≡ operator_in self.now op first last }
    {
        self.operators.get(&key(op, first, last)).copied()
    }

    /// The net of a number.
    pub fn number(&self, bits: u64) -> Option<NetId>
        ensures { result ≡ number_in self.now bits }
    {
        self.numbers.get(&bits).copied()
    }

    /// Notes the result of an operator.
    ///
    /// # Errors
    ///
    /// `NoMemory`.
    pub fn note_operator(
        &mut self,
        op: Op,
        first: NetId,
        last: NetId,
        net: NetId,
    ) -> Result<(), NoMemory>
        ensures here { OnOk result (operator_in self.new op first last ≡ Some net) }
        ensures others { OnOk result ((q : ops.Op) (a b : net_id.NetId)
            → same_key (key_of op first last) (key_of q a b) ≡ false
            → operator_in self.new q a b ≡ operator_in self.old q a b) }
        ensures numbers { OnOk result ((n : ℕ) → number_in self.new n ≡ number_in self.old n) }
    {
        match self.operators.insert(key(op, first, last), net) {
            Ok(_) => Ok(()),
            Err(_) => Err(NoMemory),
        }
    }

    /// Notes the net of a number.
    ///
    /// # Errors
    ///
    /// `NoMemory`.
    pub fn note_number(&mut self, bits: u64, net: NetId) -> Result<(), NoMemory>
        ensures here { OnOk result (number_in self.new bits ≡ Some net) }
        ensures others { OnOk result ((n : ℕ) → n ≢ bits → number_in self.new n ≡ number_in self.old n) }
        ensures operators { OnOk result ((op : ops.Op) (a b : net_id.NetId)
            → operator_in self.new op a b ≡ operator_in self.old op a b) }
    {
        match self.numbers.insert(bits, net) {
            Ok(_) => Ok(()),
            Err(_) => Err(NoMemory),
        }
    }
}
