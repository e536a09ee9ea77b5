//! Commands that are held, lent.

use crate::turn::ShortTurn;
use lam_geom::Point;

/// A command as `cif_form::Command` has it, whose points, turns and bytes are borrowed.
#[derive(Clone, Copy, Drop)]
pub enum CommandView<'a> {
    Polygon(&'a [Point]),
    Box {
        length: i64,
        width: i64,
        center: Point,
        direction: Point,
    },
    Round {
        diameter: i64,
        center: Point,
    },
    Wire {
        width: i64,
        path: &'a [Point],
    },
    Layer(&'a [u8]),
    Start {
        number: i64,
        a: i64,
        b: i64,
    },
    Finish,
    Delete(i64),
    Call {
        number: i64,
        turns: &'a [ShortTurn],
    },
    User {
        digit: u8,
        text: &'a [u8],
    },
    Comment(&'a [u8]),
}

/// A command, and the offset of its first byte in the file.
#[derive(Clone, Copy, Drop)]
pub struct ItemView<'a> {
    pub offset: u64,
    pub command: CommandView<'a>,
}
