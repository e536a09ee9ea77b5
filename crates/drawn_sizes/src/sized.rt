//! The size of a chip, counted from its masks.

ghost use Rattle.std.specs.Prelude.{IsSome, IsTrue};
ghost use Rattle.drawn_sizes.specs.Told.{IsDrawn};

use lam_geom::{Layer, Rect};
use mask_net::drawing_of;
use mp_base::push_number;
use std::alloc::{AllocError, Global};
use std::ops::RangeInclusive;

/// A lambda in half-units.
const LAMBDA: u64 = 500;
/// How wide a column is, in lambda.
const COLUMN: u64 = 20;
/// How high a signal row is, in lambda.
const ROW: u64 = 12;
/// How high a row of pull-ups is, in lambda.
const PULL_UPS: u64 = 36;

/// How far the frame reaches west of the columns, in lambda, beside a lane for each pad: a stub and a pad.
const STUB_AND_PAD: u64 = 50;
/// How wide a lane of a route is with its gap, in lambda.
const LANE: u64 = 7;
/// How far pads stand apart, in lambda, from bottom to bottom, and from top to bottom.
const PAD: u64 = 60;

const PAD_GAP: u64 = 20;

/// A rectangle of metal, with its edges in lambda from the lower left corner of the chip's columns.
#[derive(Clone, Copy)]
struct Metal {
    left: u64,
    bottom: u64,
    right: u64,
    top: u64,
}

/// The edges of what is drawn, in half-units.
#[derive(Clone, Copy)]
struct Edges {
    left: i64,
    bottom: i64,
    right: i64,
    top: i64,
}

fn edges_of(shapes: &[Rect]) -> Option<Edges> {
    let [first, ..] = shapes else {
        return None;
    };
    let mut edges = Edges {
        left: first.x0,
        bottom: first.y0,
        right: first.x1,
        top: first.y1,
    };
    for shape in shapes {
        edges.left = edges.left.min(shape.x0);
        edges.bottom = edges.bottom.min(shape.y0);
        edges.right = edges.right.max(shape.x1);
        edges.top = edges.top.max(shape.y1);
    }
    Some(edges)
}

impl Edges {
    fn width(self) -> u64 {
        self.right.abs_diff(self.left) / LAMBDA
    }

    fn height(self) -> u64 {
        self.top.abs_diff(self.bottom) / LAMBDA
    }

    /// The metal of a rectangle, unless it is of the frame, which is so wide.
    fn metal(self, shape: &Rect, frame: u64) -> Option<Metal> {
        let left = shape.x0.abs_diff(self.left) / LAMBDA;
        if shape.layer != Layer::NM || left < frame {
            return None;
        }
        Some(Metal {
            left: left.wrapping_sub(frame),
            bottom: shape.y0.abs_diff(self.bottom) / LAMBDA,
            right: (shape.x1.abs_diff(self.left) / LAMBDA).wrapping_sub(frame),
            top: shape.y1.abs_diff(self.bottom) / LAMBDA,
        })
    }
}

fn metals_of(alloc: Global, shapes: &[Rect], edges: Edges, frame: u64) -> Option<Vec<Metal>> {
    let mut metals = Vec::new(alloc);
    for shape in shapes {
        if let Some(metal) = edges.metal(shape, frame) {
            metals.push(metal).ok()?;
        }
    }
    Some(metals)
}

impl Metal {
    /// Whether it is a segment: these fill their columns, and no other metal does.
    fn is_segment(self) -> bool {
        self.left % COLUMN == 0 && self.right % COLUMN == 0
    }

    /// Whether it is a segment from this height to that.
    fn is_segment_in(self, bottom: u64, top: u64) -> bool {
        self.is_segment() && bottom <= self.bottom && self.top <= top
    }

    /// The columns over which it lies, lengthened by one.
    fn columns(self) -> RangeInclusive<u64> {
        self.left / COLUMN..=self.right / COLUMN
    }
}

/// A chip by the metal of its columns, with its pads and its whole extent.
#[derive(Drop)]
struct Masks {
    metals: Vec<Metal>,
    right: u64,
    top: u64,
    pads: u64,
    edges: Edges,
}

fn masks_of(alloc: Global, shapes: &[Rect], pads: u64) -> Option<Masks> {
    let edges = edges_of(shapes)?;
    let frame = LANE.wrapping_mul(pads).wrapping_add(STUB_AND_PAD);
    let metals = metals_of(alloc, shapes, edges, frame)?;
    let mut right = 0;
    let mut top = 0;
    for metal in &metals {
        right = metal.right.max(right);
        top = metal.top.max(top);
    }
    Some(Masks {
        metals,
        right,
        top,
        pads,
        edges,
    })
}

impl Masks {
    /// The heights at which bands end, from below. The rail of a band's pull-ups, from column 1 to the last, ends 5
    /// lambda under the band's top.
    fn band_tops(&self, alloc: Global) -> Option<Vec<u64>> {
        let mut tops = Vec::new(alloc);
        for metal in &self.metals {
            if metal.left == COLUMN && metal.right == self.right {
                tops.push(metal.top.wrapping_add(5)).ok()?;
            }
        }
        tops.sort_unstable();
        Some(tops)
    }

    fn columns(&self) -> u64 {
        self.right.wrapping_add(7) / COLUMN
    }

    /// Whether the whole is as wide and as high as such columns with such pads are: 43 lambda wider than the columns
    /// and the lanes, and as high as the bands or the pads.
    fn is_framed(&self) -> bool {
        let columns = COLUMN.wrapping_mul(self.columns());
        let lanes = LANE.wrapping_mul(self.pads);
        let pads = PAD.wrapping_mul(self.pads).wrapping_sub(PAD_GAP);
        self.edges.width() == columns.wrapping_add(lanes).wrapping_add(43)
            && self.edges.height() == self.top.max(pads)
    }

    /// How many segments from this height to that lie over each column.
    fn over(&self, alloc: Global, bottom: u64, top: u64) -> Result<Vec<u64>, AllocError> {
        let mut counts = Vec::new(alloc);
        for _ in 0..self.columns() {
            counts.push(0)?;
        }
        for metal in &self.metals {
            if metal.is_segment_in(bottom, top) {
                count_in(&mut counts, *metal);
            }
        }
        Ok(counts)
    }

    fn push_size(
        &self,
        alloc: Global,
        lines: &mut Vec<u8>,
        tops: &[u64],
    ) -> Result<(), AllocError> {
        let pull_ups = PULL_UPS.wrapping_mul(tops.len() as u64);
        push_line(lines, "columns ", self.columns())?;
        push_line(lines, "rows ", self.top.wrapping_sub(pull_ups) / ROW)?;
        let mut bottom = 0;
        for band in 0..tops.len() {
            let counts = self.over(alloc, bottom, tops[band])?;
            let (tracks, column) = densest(&counts);
            lines.extend_from_slice(b"group ")?;
            push_number(lines, band as u64)?;
            lines.extend_from_slice(b" tracks ")?;
            push_number(lines, tracks)?;
            push_line(lines, " column ", column)?;
            bottom = tops[band];
        }
        Ok(())
    }
}

// Counts a segment in each of its columns.
fn count_in(counts: &mut [u64], metal: Metal) {
    for column in metal.columns() {
        if let Some(count) = counts.get_mut(column as usize) {
            *count = count.wrapping_add(1);
        }
    }
}

// The most segments that lie over one column, and the first such column.
fn densest(counts: &[u64]) -> (u64, u64) {
    let mut densest = (0, 0);
    for column in 0..counts.len() {
        if counts[column] > densest.0 {
            densest = (counts[column], column as u64);
        }
    }
    densest
}

fn push_line(lines: &mut Vec<u8>, word: &str, number: u64) -> Result<(), AllocError> {
    lines.extend_from_slice(word.as_bytes())?;
    push_number(lines, number)?;
    lines.push(b'\n')?;
    Ok(())
}

fn drawn(alloc: Global, text: &[u8]) -> Option<Masks>
    ensures { IsSome result → IsDrawn text.now }
{
    let flat = drawing_of(alloc, Vec::from_slice(alloc, text).ok()?).ok()?;
    masks_of(
        alloc,
        flat.shapes.as_slice(),
        flat.labels.as_slice().len() as u64,
    )
}

// What is told of the size of the chip that masks draw, from the line of its columns on, if its extent is that of so
// many columns and pads.
fn size_of(alloc: Global, text: &[u8]) -> Option<Vec<u8>>
    ensures { IsSome result → IsDrawn text.now }
{
    let masks = drawn(alloc, text)?;
    if !masks.is_framed() {
        return None;
    }
    let tops = masks.band_tops(alloc)?;
    let mut lines = Vec::new(alloc);
    masks.push_size(alloc, &mut lines, &tops).ok()?;
    Some(lines)
}

/// Whether lines tell the size of the chip that masks draw.
pub fn is_size_of_chip(alloc: Global, masks: &[u8], lines: &str) -> bool
    ensures { IsTrue result → IsDrawn masks.now }
{
    match size_of(alloc, masks) {
        Some(size) => size.as_slice() == lines.as_bytes(),
        None => false,
    }
}
