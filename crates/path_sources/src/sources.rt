//! What gives the inputs of a path their values, told for each net so that no list is searched.

ghost use Rattle.std.specs.Prelude.{◌≡◌, ◌<◌, ◌==◌, ℕ, All, IfOk, [], length, if◌then◌else◌};
ghost use Rattle.nor_net.specs.declared.net.NetId.{NetId};
ghost use Rattle.organelles.specs.declared.slices.Programmed.{Programmed};
ghost use Rattle.path_form.specs.Shape.{chain_to};
ghost use Rattle.path_form.specs.declared.path.Cast.{Cast};
ghost use Rattle.path_form.specs.declared.path.DataPath.{DataPath};
ghost use Rattle.path_form.specs.declared.path.Lift.{Lift};
ghost use Rattle.path_sources.specs.Sources.{cast_source, chain_source, lift_source, or_source, path_source};
ghost use Rattle.path_sources.specs.Sources.{program_source, source_at, source_of, told};
ghost use Rattle.path_sources.specs.declared.sources.Source.TheVariants.{Pad};

use mp_base::{List, NoMemory};
use nor_net::NetId;
use organelles::{Chain, Programmed};
use path_form::{Cast, DataPath, Lift};
use std::alloc::Global;

/// What gives an input its value: a pad, a net of the slice below or above, a bit of its own in each slice, a net of
/// the control, or a net of one slice.
#[derive(Clone, Copy, PartialEq, Eq, Debug)]
pub enum Source {
    Pad,
    Below(NetId),
    Above(NetId),
    Bits(u64),
    Control(NetId),
    Slice(u8, NetId),
}

// Tells what gives a net its value, where nothing was told before.
fn tell(sources: &mut List<Source>, net: NetId, source: Source)
    requires { net.0 < length sources.old }
    ensures size { length sources.new ≡ length sources.old }
    ensures told { (n : ℕ) → source_at sources.new n
        ≡ or_source (source_at sources.old n) (if net.0 == n then source else Pad) }
{
    if matches!(sources.at(net.0), Source::Pad) {
        sources.set(net.0, source);
    }
}

// The end of a chain, and what gives it its value.
fn end_of(chain: Chain) -> (NetId, Source)
    ensures end { result.0 ≡ chain_to chain }
    ensures source { result.1 ≡ chain_source chain }
{
    match chain {
        Chain::Up { from, to } => (to, Source::Below(from)),
        Chain::Down { from, to } => (to, Source::Above(from)),
    }
}

fn tell_chains(sources: &mut List<Source>, chains: &[Chain])
    requires { All (λ c. (chain_to c).0 < length sources.old) chains.now }
    ensures size { length sources.new ≡ length sources.old }
    ensures told { (n : ℕ) → source_at sources.new n
        ≡ or_source (source_at sources.old n) (told chain_to chain_source n chains.now) }
{
    for chain in chains {
        let (to, source) = end_of(*chain);
        tell(sources, to, source);
    }
}

fn tell_programs(sources: &mut List<Source>, programs: &[Programmed])
    requires { All (λ p. p.net.0 < length sources.old) programs.now }
    ensures size { length sources.new ≡ length sources.old }
    ensures told { (n : ℕ) → source_at sources.new n
        ≡ or_source (source_at sources.old n) (told (λ (p : Programmed). p.net) program_source n programs.now) }
{
    for program in programs {
        tell(sources, program.net, Source::Bits(program.bits));
    }
}

fn tell_casts(sources: &mut List<Source>, casts: &[Cast])
    requires { All (λ c. c.slice.0 < length sources.old) casts.now }
    ensures size { length sources.new ≡ length sources.old }
    ensures told { (n : ℕ) → source_at sources.new n
        ≡ or_source (source_at sources.old n) (told (λ (c : Cast). c.slice) cast_source n casts.now) }
{
    for cast in casts {
        tell(sources, cast.slice, Source::Control(cast.control));
    }
}

fn tell_lifts(sources: &mut List<Source>, lifts: &[Lift])
    requires { All (λ l. l.control.0 < length sources.old) lifts.now }
    ensures size { length sources.new ≡ length sources.old }
    ensures told { (n : ℕ) → source_at sources.new n
        ≡ or_source (source_at sources.old n) (told (λ (l : Lift). l.control) lift_source n lifts.now) }
{
    for lift in lifts {
        tell(sources, lift.control, Source::Slice(lift.slice, lift.from));
    }
}

// For this many nets, each given its value by a pad.
fn pads(alloc: Global, count: u32) -> Result<List<Source>, NoMemory>
    ensures size { IfOk result (λ sources. length sources ≡ count) }
    ensures pads { IfOk result (λ sources. (n : ℕ) → source_at sources n ≡ Pad) }
{
    Ok(List::from_vec(vec![in alloc; Source::Pad; count as usize]?))
}

/// What gives each net of the control, and each net of a slice, its value if it is an input.
#[derive(Drop)]
pub struct Sources {
    pub control: List<Source>,
    pub slices: List<Source>,
}

impl Sources {
    /// Those of a path.
    pub fn new(alloc: Global, path: &DataPath) -> Result<Sources, NoMemory>
        ensures { IfOk result (λ sources. (band net : ℕ) → source_of sources band net ≡ path_source path.now band net) }
    {
        let mut control = pads(alloc, path.control.len())?;
        tell_lifts(&mut control, path.lifts.as_slice());
        let mut slices = pads(alloc, path.slices.net.len())?;
        tell_chains(&mut slices, path.slices.chains.as_slice());
        tell_programs(&mut slices, path.slices.programs.as_slice());
        tell_casts(&mut slices, path.casts.as_slice());
        Ok(Sources { control, slices })
    }

    /// What gives a net of a band its value, if it is an input.
    pub fn source(&self, band: u32, net: u32) -> Source
        ensures { result ≡ source_of self.now band net }
    {
        let sources = if band == 0 {
            self.control.as_slice()
        } else {
            self.slices.as_slice()
        };
        match sources.get(net as usize) {
            Some(source) => *source,
            None => Source::Pad,
        }
    }
}
