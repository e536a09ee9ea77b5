//! Fabrics of a file, each a line: the network that each draws, and the one that its segments, lines and marks mean; and
//! the text of a chip, and the strips of drawings.
#![tactic(auto)]

mod answer;
mod build;
mod chip;
mod fits;
mod layers;
mod pieces;
mod read;

use answer::answer;
use layers::show_drawings;
use pieces::show_chip;
use std::{fs, io};

// Each line of this file is a fabric.
fn show_fabrics(rt: &HostRuntime, name: &str) -> io::Result<()> {
    let texts = fs::read(rt, name)?;
    for text in texts.split(|byte| *byte == b'\n') {
        if !text.is_empty() {
            let fabric = String::from_utf8_lossy(rt.alloc(), text)?;
            let words = answer(rt.alloc(), text)?;
            println!(rt; "{fabric}\n    {words}")?;
        }
    }
    Ok(())
}

fn main(rt: HostRuntime) -> io::Result<()> {
    show_fabrics(&rt, "worked.txt")?;
    show_fabrics(&rt, "random.txt")?;
    show_chip(&rt)?;
    show_drawings(&rt, "layers.txt")
}
