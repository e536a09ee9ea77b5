//! Look-ups in a net.

ghost use Rattle.std.specs.Prelude.{◌≡◌, ◌<◌, List, length, slice_get, Some};
ghost use Rattle.array_form.specs.Homes.{phase_number};
ghost use Rattle.nor_net.specs.declared.net.NetId as ids;
ghost use Rattle.nor_net.specs.declared.net.Part.TheVariants as part;
ghost use Rattle.band_lists.specs.Kinds.{IsOfKind};

use nor_net::{Net, NetId, NetKind, Phase};

/// What a net is.
pub fn kind_at(net: &Net, n: u32) -> NetKind
    requires { n < length net.now }
    ensures { IsOfKind result (slice_get net.now n) }
{
    net.kind(NetId(n))
}

/// The inputs of a gate.
pub fn gate_inputs(net: &Net, n: u32) -> &[NetId]
    requires { (inputs : List ids.NetId) × (slice_get net.now n ≡ Some (part.Gate inputs)) }
    ensures { slice_get net.now n ≡ Some (part.Gate result.now) }
{
    net.gate_inputs(NetId(n))
}

/// The place of a phase among the three.
pub fn phase_index(phase: Phase) -> u32
    ensures value { result ≡ phase_number phase }
    ensures small { result < 3 }
{
    match phase {
        Phase::A => 0,
        Phase::B => 1,
        Phase::C => 2,
    }
}
