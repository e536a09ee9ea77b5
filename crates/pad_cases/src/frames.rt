//! Frames of pads.

ghost use Rattle.std.specs.Prelude.{◌≡◌, ◌∷◌, [], pos, IfOk};
ghost use Rattle.pad_frame.specs.Frames.{AreWishes};

use crate::shown::show_rects;
use mp_base::{Name, NoMemory};
use pad_frame::{Framed, PadWish, frame};
use std::alloc::Global;
use std::io;

fn wish(alloc: Global, row: i64) -> Result<PadWish, NoMemory>
    ensures { IfOk result (λ wish. wish.row ≡ row) }
{
    Ok(PadWish {
        name: Name::from_slice(alloc, b"g")?,
        row,
    })
}

// The frame of one pad, for this row.
fn one(alloc: Global) -> Result<Framed, NoMemory> {
    let wish = wish(alloc, 6)?;
    frame(alloc, &[wish])
}

fn show(rt: &HostRuntime, framed: &Framed) -> io::Result<()> {
    show_rects(rt, framed.shape.as_slice())?;
    for spot in framed.spots.as_slice() {
        let name = String::from_utf8_lossy(rt.alloc(), spot.name.bytes())?;
        println!(rt; "    {name} at {} {}", spot.x, spot.y)?;
    }
    Ok(())
}

/// The frame of one pad, which is joined at a height of 6 lambda.
pub(crate) fn show_frames(rt: &HostRuntime) -> io::Result<()> {
    println!(rt; "frame of g at 6")?;
    match one(rt.alloc()) {
        Ok(framed) => show(rt, &framed),
        Err(_) => println!(rt; "not enough memory"),
    }
}
