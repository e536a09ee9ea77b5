//! What joins bands and slices, and the marks of their order.

ghost use Rattle.std.specs.Prelude.{◌≡◌, ◌&&◌, ◌||◌, IsTrue, nat_le, nat_lt};
ghost use Rattle.std.specs.List.{list_all, list_any};
ghost use Rattle.path_order.specs.declared.order.Mark as mark_type;
ghost use Rattle.path_order.specs.Marked.{RiseTo};
ghost use Rattle.path_order.specs.Order.{start};
ghost use Rattle.path_draft.specs.Testing.{cast_marked, casts_join, chain_fits, chain_marked, chains_join, lift_fits};
ghost use Rattle.path_draft.specs.Testing.{lift_marked, lifts_join, rises};

use nor_net::NetId;
use organelles::Chain;
use path_form::{Cast, Lift};
use path_order::Mark;

// Whether a chain joins two nets of a slice of so many.
fn chain_fits(chain: Chain, count: u32) -> bool
    ensures { result ≡ chain_fits count chain }
{
    match chain {
        Chain::Up { from, to } => from.0 < count && to.0 < count && from.0 != to.0,
        Chain::Down { from, to } => from.0 < count && to.0 < count && from.0 != to.0,
    }
}

// Whether no mark parts a net from one that is to stand before it or between the same marks.
fn none_parts(from: NetId, to: NetId, marks: &[Mark]) -> bool
    ensures { result ≡ list_all (λ (m : mark_type.Mark). nat_le m.slices to.0 || nat_lt from.0 m.slices) marks.now }
{
    marks
        .iter()
        .all(|mark| mark.slices <= to.0 || from.0 < mark.slices)
}

// Whether a mark stands between a net and one behind it.
fn one_parts(from: NetId, to: NetId, marks: &[Mark]) -> bool
    ensures { result ≡ list_any (λ (m : mark_type.Mark). nat_lt from.0 m.slices && nat_le m.slices to.0) marks.now }
{
    marks
        .iter()
        .any(|mark| from.0 < mark.slices && mark.slices <= to.0)
}

// What marks say of a chain.
fn chain_marked(chain: Chain, marks: &[Mark]) -> bool
    ensures { result ≡ chain_marked marks.now chain }
{
    match chain {
        Chain::Up { from, to } => none_parts(from, to, marks),
        Chain::Down { from, to } => one_parts(from, to, marks),
    }
}

// What they say of a cast.
fn cast_marked(cast: Cast, marks: &[Mark]) -> bool
    ensures { result ≡ cast_marked marks.now cast }
{
    marks.iter().any(|mark| cast.control.0 < mark.control && mark.slices <= cast.slice.0)
}

// What they say of a lift.
fn lift_marked(lift: Lift, marks: &[Mark]) -> bool
    ensures { result ≡ lift_marked marks.now lift }
{
    marks.iter().all(|mark| mark.control <= lift.control.0 || lift.from.0 < mark.slices)
}

// Whether a lift is one of a net of one of so many slices of so many nets.
fn lift_fits(lift: Lift, width: u8, slices: u32) -> bool
    ensures { result ≡ lift_fits width slices lift }
{
    lift.slice < width && lift.from.0 < slices
}

/// Whether chains join nets of a slice of so many, as the marks want it.
pub(crate) fn chains_join(chains: &[Chain], slices: u32, marks: &[Mark]) -> bool
    ensures { result ≡ chains_join slices marks.now chains.now }
{
    chains.iter().all(|chain| chain_fits(*chain, slices) && chain_marked(*chain, marks))
}

/// Whether casts are of nets of a control of so many, as the marks want it.
pub(crate) fn casts_join(casts: &[Cast], control: u32, marks: &[Mark]) -> bool
    ensures { result ≡ casts_join control marks.now casts.now }
{
    casts.iter().all(|cast| cast.control.0 < control && cast_marked(*cast, marks))
}

/// Whether lifts are of nets of slices, as the marks want it.
pub(crate) fn lifts_join(lifts: &[Lift], width: u8, slices: u32, marks: &[Mark]) -> bool
    ensures { result ≡ lifts_join width slices marks.now lifts.now }
{
    lifts.iter().all(|lift| lift_fits(*lift, width, slices) && lift_marked(*lift, marks))
}

// Whether a mark lies at or behind another.
fn rises(from: Mark, to: Mark) -> bool
    ensures { result ≡ rises from to }
{
    from.slices <= to.slices && from.control <= to.control
}

/// Whether each mark lies at or behind the one before, and the last is the end.
pub(crate) fn rise_to(end: Mark, marks: &[Mark]) -> bool
    ensures { IsTrue result → RiseTo end start marks.now }
{
    let mut from = Mark {
        slices: 0,
        control: 0,
    };
    for to in marks {
        if !rises(from, *to) {
            return false;
        }
        from = *to;
    }
    from.slices == end.slices && from.control == end.control
}
