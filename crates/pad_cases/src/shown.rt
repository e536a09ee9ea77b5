//! Drawings in words.

use lam_geom::Rect;
use std::io;

const LAMBDA: i64 = 500;

/// Each rectangle in a line.
pub(crate) fn show_rects(rt: &HostRuntime, rects: &[Rect]) -> io::Result<()> {
    for rect in rects {
        let (left, bottom) = (rect.x0 / LAMBDA, rect.y0 / LAMBDA);
        let right = (rect.x1 / LAMBDA).wrapping_sub(1);
        let top = (rect.y1 / LAMBDA).wrapping_sub(1);
        println!(rt; "    x {left}..{right} y {bottom}..{top}")?;
    }
    Ok(())
}
