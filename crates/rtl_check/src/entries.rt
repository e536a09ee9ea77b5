//! Look-ups.

ghost use Rattle.std.specs.Prelude.{◌≤◌, MatchOption, length};
ghost use Rattle.mp_base.specs.Entries.{IsAt};

use mp_base::List;

/// The entry at an index, if there is one.
pub(crate) fn entry<T>(entries: &List<T>, index: u32) -> Option<&T>
    ensures { MatchOption result (length entries.now ≤ index) (λ x. IsAt entries.now index x.now) }
{
    entries.as_slice().get(index as usize)
}
