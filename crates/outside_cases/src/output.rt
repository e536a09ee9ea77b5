//! Outputs over writers that are soon full, or always.

use outside::{Sink, write_all};
use std::fs::OpenOptions;
use std::io;
use system_outside::OutSink;

// Writes texts to an output over these bytes, which is flushed behind each.
fn show_output(rt: &HostRuntime, room: &mut [u8], texts: [&str; 3]) -> io::Result<()> {
    println!(rt; "an output of {} bytes", room.len())?;
    let mut out = OutSink::new(room);
    for text in texts {
        let written = out.write(text.as_bytes());
        let flushed = out.flush();
        println!(rt; "write of {text}: {written:?}, flushed: {flushed:?}")?;
    }
    Ok(())
}

fn show_small(rt: &HostRuntime) -> io::Result<()> {
    let mut room = [0u8; 4];
    show_output(rt, &mut room, ["abcd", "e", ""])?;
    let mut room = [0u8; 3];
    show_output(rt, &mut room, ["ab", "", "cd"])?;
    let held = String::from_utf8_lossy(rt.alloc(), &room[..2])?;
    println!(rt; "it holds {held}")
}

// A text longer than an output keeps back goes to a writer of 9,000 bytes.
fn show_long(rt: &HostRuntime) -> io::Result<()> {
    let mut room = [0u8; 9000];
    let mut out = OutSink::new(room.as_mut_slice());
    let text = [b'x'; 8999];
    let written = write_all(&mut out, &text);
    let ended = write_all(&mut out, b"\n");
    println!(rt; "8999 bytes: {written:?}, and one more: {ended:?}")?;
    let flushed = out.flush();
    let more = write_all(&mut out, &text);
    println!(rt; "flushed: {flushed:?}, and 8999 more: {more:?}")?;
    let (whole, end) = (room.starts_with(&text), room[8999]);
    println!(rt; "it holds the first: {whole}, and then the byte {end}")
}

// A device that takes nothing.
fn show_device(rt: &HostRuntime) -> io::Result<()> {
    let mut out = OutSink::new(OpenOptions::new().write(true).open(rt, "/dev/full")?);
    let written = write_all(&mut out, b"abc");
    let flushed = out.flush();
    let long = write_all(&mut out, &[b'x'; 5000]);
    println!(rt; "a full device: {written:?}, flushed: {flushed:?}, and 5000 bytes: {long:?}")
}

pub(crate) fn show(rt: &HostRuntime) -> io::Result<()> {
    show_small(rt)?;
    show_long(rt)?;
    show_device(rt)
}
