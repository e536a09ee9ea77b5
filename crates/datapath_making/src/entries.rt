//! The nets that stand for entries.

ghost use Rattle.nor_net.specs.declared.net.NetId as net_id;
ghost use Rattle.control_nor.specs.Lowering.{Stands};

use nor_net::NetId;

/// The net that stands for an entry.
pub fn entry(entries: &[Option<NetId>], index: usize) -> NetId
    requires { (id : net_id.NetId) × Stands entries.now index id }
    ensures { Stands entries.now index result }
{
    match entries[index] {
        Some(net) => net,
        None => NetId(0),
    }
}

/// The same, by a shorter index.
pub fn net_of(entries: &[Option<NetId>], index: u32) -> NetId
    requires { (id : net_id.NetId) × Stands entries.now index id }
    ensures { Stands entries.now index result }
{
    entry(entries, index as usize)
}
