//! Definitions.

ghost use Rattle.std.specs.Prelude.{◌≡◌, ◌↔◌, ◌<◌, ◌≤◌, length, slice_range, IsTrue};
ghost use Rattle.cif_flat.specs.Naming.{IsNamingAt, IsSymbolNaming, naming_bytes};

use crate::label::name_span;
use cif_list::{Cif, CommandView};
use cif_place::Ratio;

/// Where the name of a symbol stands: in the text of the user command at an index.
#[derive(Clone, Copy, Drop)]
pub(crate) struct Naming {
    pub item: usize,
    pub start: usize,
    pub end: usize,
}

impl Naming {
    /// The name.
    pub(crate) fn bytes(self, items: &Cif) -> &[u8]
        ensures { result.now ≡ naming_bytes items.now self }
    {
        if self.item >= items.len() {
            return &[];
        }
        let CommandView::User { text, .. } = items.at(self.item).command else {
            return &[];
        };
        let end = self.end.min(text.len());
        if self.start > end {
            return &[];
        }
        &text[self.start..end]
    }

    /// Whether it is the same place.
    pub(crate) fn is_same(self, other: Naming) -> bool
        ensures { IsTrue result ↔ (self ≡ other) }
    {
        if self.item != other.item {
            return false;
        }
        if self.start != other.start {
            return false;
        }
        self.end == other.end
    }
}

/// A definition: its scale, where its name stands if it has one, and where its commands stand.
#[derive(Clone, Copy, Drop)]
pub(crate) struct Symbol {
    pub ratio: Ratio,
    pub named: Option<Naming>,
    pub first: usize,
    pub end: usize,
}

/// Where a name stands in the command at an index, if the command names a symbol.
fn naming_at(items: &Cif, item: usize) -> Option<Naming>
    requires { item < length items.now }
    ensures { IsNamingAt items.now item result }
{
    let CommandView::User { digit, text } = items.at(item).command else {
        return None;
    };
    if digit != 9 {
        return None;
    }
    let Some((start, end)) = name_span(text) else {
        return None;
    };
    Some(Naming { item, start, end })
}

/// Where the name of a symbol stands whose commands are those of a range: the first that stands there.
pub(crate) fn naming_of(items: &Cif, first: usize, end: usize) -> Option<Naming>
    requires forward { first ≤ end }
    requires within { end ≤ length items.now }
    ensures { IsSymbolNaming items.now (slice_range items.now first end) result }
{
    for index in first..end {
        if let Some(naming) = naming_at(items, index) {
            return Some(naming);
        }
    }
    None
}
