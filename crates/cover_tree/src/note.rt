//! Notes of what lies over the parts of a tree.

use crate::kinds::Kinds;

/// What lies over a part's cells by the nodes of the part and of its halves, in the rows from the trees' `since` up
/// to `until`, which is outside: nothing changes in these rows, and the layers over each cell are one of the kinds.
#[derive(Clone, Copy, Drop)]
pub(crate) struct Note {
    pub until: u32,
    pub kinds: Kinds,
}

impl Note {
    ghost use Rattle.std.specs.Prelude.{◌≡◌};
    ghost use Rattle.cover_tree.specs.Nodes.{stale};

    /// A note of no row.
    pub fn stale() -> Note
        ensures { result ≡ stale }
    {
        Note {
            until: 0,
            kinds: Kinds { bits: 0 },
        }
    }
}
