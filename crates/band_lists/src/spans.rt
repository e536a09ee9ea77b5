//! The columns that segments span.

ghost use Rattle.std.specs.Prelude.{◌≡◌, ◌<◌, ℕ, All, IfOk, length, slice_index_or};
ghost use Rattle.band_lists.specs.Spans.{IsPin, column_at, columns_at, span_of, widened_by};

use crate::pins::{At, Pin};
use std::alloc::{AllocError, Global};
use track_assign::Interval;

// The span of a segment that has no pin yet.
const NOWHERE: Interval = Interval {
    first: u32::MAX,
    last: 0,
};

fn column_of(columns: &[u32], pin: Pin) -> u32
    requires { IsPin columns.now pin }
    ensures { result ≡ column_at columns.now pin.at }
{
    match pin.at {
        At::Home(net) => columns[net as usize],
        At::Column(column) => column,
    }
}

fn widened(span: Interval, column: u32) -> Interval
    ensures { result ≡ widened_by span column }
{
    Interval {
        first: span.first.min(column),
        last: span.last.max(column),
    }
}

/// From the least to the greatest column of the pins of each segment, where these are the columns of nets.
pub fn spans(
    alloc: Global,
    segments: usize,
    columns: &[u32],
    pins: &[Pin],
) -> Result<Vec<Interval>, AllocError>
    requires pins { All (IsPin columns.now) pins.now }
    requires segments { All (λ p. p.segment < segments) pins.now }
    ensures long { IfOk result (λ spans. length spans.items ≡ segments) }
    ensures spans { IfOk result (λ spans. (k : ℕ) → k < segments
        → slice_index_or spans.items k NOWHERE ≡ span_of (columns_at columns.now pins.now k)) }
{
    let mut spans = vec![in alloc; NOWHERE; segments]?;
    for pin in pins {
        let segment = pin.segment as usize;
        spans[segment] = widened(spans[segment], column_of(columns, *pin));
    }
    Ok(spans)
}
