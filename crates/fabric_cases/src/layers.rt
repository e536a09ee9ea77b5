//! The strips of each layer of a drawing, and which touch.

use crate::read::words_of;
use lam_geom::{Layer, Rect};
use layer_strips::{Pair, Regions, regions};
use std::alloc::{AllocError, Global};
use std::{fs, io};

fn layer(word: &[u8]) -> Option<Layer> {
    match word {
        b"ND" => Some(Layer::ND),
        b"NP" => Some(Layer::NP),
        b"NM" => Some(Layer::NM),
        b"NG" => Some(Layer::NG),
        _ => None,
    }
}

// The rectangle that a layer and four edges stand for.
fn rect(alloc: Global, part: &[u8]) -> Result<Option<Rect>, AllocError> {
    let words = words_of(alloc, part)?;
    match (layer(words.first), words.numbers.as_slice()) {
        (Some(layer), [x0, y0, x1, y1]) => Ok(Some(Rect {
            layer,
            x0: i64::from(*x0),
            y0: i64::from(*y0),
            x1: i64::from(*x1),
            y1: i64::from(*y1),
        })),
        _ => Ok(None),
    }
}

fn rects(alloc: Global, line: &[u8]) -> Result<Vec<Rect>, AllocError> {
    let mut rects = Vec::new(alloc);
    for part in line.split(|byte| *byte == b';') {
        if let Some(rect) = rect(alloc, part)? {
            rects.push(rect)?;
        }
    }
    Ok(rects)
}

fn show_strips(rt: &HostRuntime, strips: &[Rect]) -> io::Result<()> {
    for strip in strips {
        let (layer, x0, y0, x1, y1) = (strip.layer, strip.x0, strip.y0, strip.x1, strip.y1);
        println!(rt; "    {layer:?} {x0} {y0} {x1} {y1}")?;
    }
    Ok(())
}

fn show_pairs(rt: &HostRuntime, pairs: &[Pair]) -> io::Result<()> {
    for pair in pairs {
        let (a, b) = (pair.a, pair.b);
        println!(rt; "    {a} touches {b}")?;
    }
    Ok(())
}

fn show_regions(rt: &HostRuntime, found: &Regions) -> io::Result<()> {
    show_strips(rt, found.strips.as_slice())?;
    show_pairs(rt, found.pairs.as_slice())
}

// The strips of a drawing, whose rectangles a line has.
fn show_layers(rt: &HostRuntime, line: &[u8]) -> io::Result<()> {
    let shapes = rects(rt.alloc(), line)?;
    match regions(rt.alloc(), &shapes) {
        Ok(found) => show_regions(rt, &found),
        Err(_) => println!(rt; "    no memory"),
    }
}

/// The strips of the drawings of a file, and which touch.
pub(crate) fn show_drawings(rt: &HostRuntime, name: &str) -> io::Result<()> {
    let texts = fs::read(rt, name)?;
    for text in texts.split(|byte| *byte == b'\n') {
        if !text.is_empty() {
            let drawing = String::from_utf8_lossy(rt.alloc(), text)?;
            println!(rt; "{drawing}")?;
            show_layers(rt, text)?;
        }
    }
    Ok(())
}
