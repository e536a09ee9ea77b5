//! Rule N4: labels that are missing.

ghost use Rattle.std.specs.Prelude.{◌≡◌, IfOk, IfErr};
ghost use Rattle.std.specs.List.{AllZip};
ghost use Rattle.switch_net.specs.Clock.{IsLabelled};
ghost use Rattle.clock_run.specs.Refused.{IsMissingFirst};

use crate::numbers::{nodes_of, number_of};
use mp_base::{Broken, Family, List, Name, Refusal, Rule, Spot};
use std::alloc::Global;
use switch_net::Network;

/// The node of each label, or the first label that is missing.
pub(crate) fn resolve(
    alloc: Global,
    network: &Network,
    labels: &[Name],
) -> Result<List<u32>, Refusal>
    ensures ok { IfOk result (λ nodes. AllZip (IsLabelled network.now) labels.now nodes) }
    ensures err { IfErr result (IsMissingFirst network.now labels.now) }
{
    let numbers = nodes_of(alloc, network.tags.as_slice())?;
    let mut nodes = List::new(alloc);
    for name in labels {
        match number_of(&numbers, name.bytes()) {
            Some(node) => nodes.push(node)?,
            None => {
                return Err(Refusal::Broken(Broken {
                    rule: Rule {
                        family: Family::N,
                        number: 4,
                    },
                    spot: Spot::Named(Name::from_slice(alloc, name.bytes())?),
                }));
            }
        }
    }
    Ok(nodes)
}
