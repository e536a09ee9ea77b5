//! `measure` and `place`.

ghost use Rattle.std.specs.Prelude.{◌≡◌, [], ◌∷◌, IfOk, OnOk, length, take};
ghost use Rattle.array_form.specs.Place.{HasSpace, IsBandOf, IsFitted, IsMeasured, IsPlaced};
ghost use Rattle.fabric.specs.Room.{IsKept};
ghost use Rattle.nor_net.specs.Shape.{IsFed, IsNet};
ghost use Rattle.weinberger.specs.Layouts.{AreListed, AreTracksOf, placed_by};

use crate::added::{Added, listed};
use crate::layout::{Layout, lay_out};
use array_form::{Band, Placed, Size};
use fabric::{Fabric, Segment};
use mp_base::{List, NoMemory};
use nor_net::Net;
use std::alloc::Global;
use track_assign::Tracks;

/// How many columns a fabric wants, and how many signal rows the band, for a net to be placed there. Behind the
/// columns of the phases and the taps stands one for each gate, each latch and each input that nothing reads or taps,
/// and the last is power's; above the row of ground stand as many rows as segments of nets and phases lie over one
/// column.
///
/// # Errors
/// Want of memory.
pub fn measure(alloc: Global, net: &Net, band: &Band) -> Result<Size, NoMemory>
    requires { IsBandOf band.now net.now }
    ensures { IfOk result (λ size. IsMeasured band.now net.now size) }
{
    let layout = lay_out(alloc, net, band)?;
    Ok(Size {
        columns: layout.homes.end + 1,
        rows: layout.tracks.rows + 1,
    })
}

/// Places a net in a band of a fabric (Weinberger's array of NOR gates; Mead and Conway, chapter 3). Each net and each
/// phase has a segment of metal in a row. Each gate and each latch has a column with two lines: a gate's left line is
/// tapped to its segment and has a pull-up, its right line is ground, and a transistor in the row of each net that the
/// gate reads can join them; a latch's right line is tapped to its data, and a transistor in the row of its phase
/// joins it to the left one. An input that nothing reads or taps has a line of its own.
///
/// The marks of taps and the lines of phases are the caller's.
///
/// # Errors
/// Want of memory. Then the fabric holds a part of the net.
pub fn place(alloc: Global, net: &Net, fabric: &mut Fabric, band: &Band) -> Result<Placed, NoMemory>
    requires fed { IsFed net.now }
    requires fitted { IsFitted fabric.old band.now net.now }
    requires space { HasSpace fabric.old net.now }
    ensures { IfOk result (λ placed. IsPlaced band.now net.now fabric.old fabric.new placed) }
{
    // What every fabric and every net keeps.
    fabric.conditions();
    let _nets = net.len();
    let layout = lay_out(alloc, net, band)?;
    let added = listed(alloc, net, band, &layout)?;
    add(net, fabric, band, &layout, &added)?;
    let placed = placed(alloc, net, added.segments, layout.tracks)?;
    Ok(placed)
}

// Adds what is listed.
fn add(
    net: &Net,
    fabric: &mut Fabric,
    band: &Band,
    layout: &Layout,
    added: &Added,
) -> Result<(), NoMemory>
    requires shape { IsNet net.now }
    requires fed { IsFed net.now }
    requires kept { IsKept fabric.old }
    requires fitted { IsFitted fabric.old band.now net.now }
    requires space { HasSpace fabric.old net.now }
    requires tracks { AreTracksOf band.now net.now layout.now.tracks }
    requires listed { AreListed band.now net.now layout.now.tracks added.now }
    ensures { OnOk result (fabric.new ≡ placed_by fabric.old band.now net.now layout.now.tracks) }
{
    fabric.add(&added.segments, &added.lines, &added.marks)?;
    Ok(())
}

// What is told of it: the segments of nets, and the rows.
fn placed(
    alloc: Global,
    net: &Net,
    segments: Vec<Segment>,
    tracks: Tracks,
) -> Result<Placed, NoMemory>
    ensures segments { IfOk result (λ placed. placed.segments ≡ take (length net.now) segments.items ∷ []) }
    ensures groups { IfOk result (λ placed. placed.groups ≡ tracks ∷ []) }
{
    let mut segments = segments;
    segments.truncate(net.len() as usize);
    let mut in_bands = List::new(alloc);
    in_bands.push(List::from_vec(segments))?;
    let mut groups = List::new(alloc);
    groups.push(tracks)?;
    Ok(Placed {
        segments: in_bands,
        groups,
    })
}
