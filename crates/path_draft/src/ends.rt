//! The nets that pads, and what joins bands and slices, end in.

ghost use Rattle.std.specs.Prelude.{◌≡◌, ◌<◌, [], ◌∷◌, ◌++◌, Some, IfOk, OnOk, length, map, slice_get};
ghost use Rattle.organelles.specs.declared.slices.Programmed as program_type;
ghost use Rattle.path_form.specs.declared.path.Cast as cast_type;
ghost use Rattle.path_form.specs.declared.path.Lift as lift_type;
ghost use Rattle.path_form.specs.Shape.{chain_to, control_ends, entries_of};

use mp_base::{List, NoMemory, Pad};
use nor_net::NetId;
use organelles::{Chain, Programmed};
use path_form::{Cast, Lift};
use std::alloc::Global;

// Adds the net of a pad, if that is a word, or a signal, as is asked for.
fn add_entry(entries: &mut List<NetId>, word: bool, pad: &Pad, id: NetId) -> Result<(), NoMemory>
    ensures { OnOk result (entries.new ≡ entries.old ++ entries_of word (pad.now ∷ []) (id ∷ [])) }
{
    if word != (pad.width == 0) {
        entries.push(id)?;
    }
    Ok(())
}

// The net at an index.
fn id_at(ids: &[NetId], index: usize) -> NetId
    requires { index < length ids.now }
    ensures { slice_get ids.now index ≡ Some result }
{
    ids[index]
}

/// The nets of those pads that are words, or of those that are signals.
///
/// # Errors
///
/// `NoMemory`.
pub fn entries_of(
    alloc: Global,
    word: bool,
    pads: &[Pad],
    ids: &[NetId],
) -> Result<List<NetId>, NoMemory>
    requires { length ids.now ≡ length pads.now }
    ensures { IfOk result (λ entries. entries ≡ entries_of word pads.now ids.now) }
{
    let mut entries = List::new(alloc);
    for index in 0..pads.len() {
        add_entry(&mut entries, word, &pads[index], id_at(ids, index))?;
    }
    Ok(entries)
}

// Adds all of these nets.
fn add_nets(ends: &mut List<NetId>, ids: &[NetId]) -> Result<(), NoMemory>
    ensures { OnOk result (ends.new ≡ ends.old ++ ids.now) }
{
    for id in ids {
        ends.push(*id)?;
    }
    Ok(())
}

// The end of a chain.
fn chain_to(chain: Chain) -> NetId
    ensures { result ≡ chain_to chain }
{
    match chain {
        Chain::Up { to, .. } => to,
        Chain::Down { to, .. } => to,
    }
}

fn add_chains(ends: &mut List<NetId>, chains: &[Chain]) -> Result<(), NoMemory>
    ensures { OnOk result (ends.new ≡ ends.old ++ map chain_to chains.now) }
{
    for chain in chains {
        ends.push(chain_to(*chain))?;
    }
    Ok(())
}

fn add_casts(ends: &mut List<NetId>, casts: &[Cast]) -> Result<(), NoMemory>
    ensures { OnOk result (ends.new ≡ ends.old ++ map (λ (c : cast_type.Cast). c.slice) casts.now) }
{
    for cast in casts {
        ends.push(cast.slice)?;
    }
    Ok(())
}

fn add_programs(ends: &mut List<NetId>, programs: &[Programmed]) -> Result<(), NoMemory>
    ensures { OnOk result (ends.new ≡ ends.old ++ map (λ (p : program_type.Programmed). p.net) programs.now) }
{
    for program in programs {
        ends.push(program.net)?;
    }
    Ok(())
}

fn add_lifts(ends: &mut List<NetId>, lifts: &[Lift]) -> Result<(), NoMemory>
    ensures { OnOk result (ends.new ≡ ends.old ++ map (λ (l : lift_type.Lift). l.control) lifts.now) }
{
    for lift in lifts {
        ends.push(lift.control)?;
    }
    Ok(())
}

/// Two lists of nets, one behind the other.
pub(crate) fn both(alloc: Global, nets: &[NetId], more: &[NetId]) -> Result<List<NetId>, NoMemory>
    ensures { IfOk result (λ all. all ≡ nets.now ++ more.now) }
{
    let mut all = List::new(alloc);
    add_nets(&mut all, nets)?;
    add_nets(&mut all, more)?;
    Ok(all)
}

/// All that gives the control its inputs: pads and lifts.
pub(crate) fn control_ends(
    alloc: Global,
    pads: &[NetId],
    lifts: &[Lift],
) -> Result<List<NetId>, NoMemory>
    ensures { IfOk result (λ ends. ends ≡ control_ends pads.now lifts.now) }
{
    let mut ends = List::new(alloc);
    add_nets(&mut ends, pads)?;
    add_lifts(&mut ends, lifts)?;
    Ok(ends)
}

/// All that gives a slice its inputs: pads, chains, casts and programs.
pub(crate) fn slice_ends(
    alloc: Global,
    pads: &[NetId],
    chains: &[Chain],
    programs: &[Programmed],
    casts: &[Cast],
) -> Result<List<NetId>, NoMemory>
    ensures { IfOk result (λ ends. ends ≡ pads.now ++ (map chain_to chains.now
        ++ (map (λ (c : cast_type.Cast). c.slice) casts.now ++ map (λ (p : program_type.Programmed). p.net) programs.now))) }
{
    let mut ends = List::new(alloc);
    add_nets(&mut ends, pads)?;
    add_chains(&mut ends, chains)?;
    add_casts(&mut ends, casts)?;
    add_programs(&mut ends, programs)?;
    Ok(ends)
}
