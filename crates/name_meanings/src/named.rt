//! What is known of a name.

ghost use Rattle.std.specs.Prelude.{◌≡◌};
ghost use Rattle.mp_rules.specs.Rules.{is_unset};
ghost use Rattle.name_meanings.specs.Seconds.{lesser, second_with};

use mp_program::{Def, Process, Way, What};

/// What is known of a name: the index of its first definition, the least and the second least offset of what has it,
/// whether a process has it, and whether it has a definition that no form may set. The second least tells whether
/// two that have the name don't stand after a place.
#[derive(Clone, Copy)]
pub struct Named {
    pub first: Option<u32>,
    pub least: Option<u64>,
    pub second: Option<u64>,
    pub process: bool,
    pub unset: bool,
}

// Whether this is an input or a constant.
fn is_unset(what: What) -> bool
    ensures { result ≡ is_unset what }
{
    matches!(
        what,
        What::Constant(_) | What::Port(Way::Input) | What::Signal(Way::Input)
    )
}

// The lesser of what was found and another offset.
fn lesser(found: Option<u64>, at: u64) -> Option<u64>
    ensures { result ≡ lesser found at }
{
    Some(found.unwrap_or(at).min(at))
}

// The second least offset once there is another, by the least and the second least.
fn second_with(least: Option<u64>, next: Option<u64>, at: u64) -> Option<u64>
    ensures { result ≡ second_with least next at }
{
    match least {
        Some(least) => lesser(next, least.max(at)),
        None => next,
    }
}

impl Named {
    ghost use Rattle.name_meanings.specs.Named.{unnamed, with_def, with_process};

    /// What is known of a name that nothing has.
    pub fn none() -> Named
        ensures { result ≡ unnamed }
    {
        Named {
            first: None,
            least: None,
            second: None,
            process: false,
            unset: false,
        }
    }

    /// What is known once the name has a further definition, of this index.
    pub fn with_def(self, index: u32, def: &Def) -> Named
        ensures { result ≡ with_def self index def.now }
    {
        let at = def.place.offset;
        let supply = def.what.is_supply();
        Named {
            first: Some(self.first.unwrap_or(index)),
            least: if supply {
                self.least
            } else {
                lesser(self.least, at)
            },
            second: if supply {
                self.second
            } else {
                second_with(self.least, self.second, at)
            },
            process: self.process,
            unset: self.unset || is_unset(def.what),
        }
    }

    /// What is known once a further process has the name.
    pub fn with_process(self, process: &Process) -> Named
        ensures { result ≡ with_process self process.now }
    {
        let at = process.place.offset;
        Named {
            first: self.first,
            least: lesser(self.least, at),
            second: second_with(self.least, self.second, at),
            process: true,
            unset: self.unset,
        }
    }
}
