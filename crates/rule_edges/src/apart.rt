//! Rectangles that don't face each other.

ghost use Rattle.std.specs.Prelude.{◌≡◌, All, IfOk, IfSome, true};
ghost use Rattle.lam_geom.specs.Moves.{IsNearRect};
ghost use Rattle.rule_edges.specs.Edges.{AreApart, AreClear, Passes};

use crate::edge::{Edge, edges_of};
use crate::facing::Facing;
use lam_geom::Rect;
use mp_base::NoMemory;
use std::alloc::Global;

/// Whether no rectangles face each other so.
pub(crate) fn are_apart(alloc: Global, shapes: &[Rect], facing: Facing) -> Result<bool, NoMemory>
    requires { All IsNearRect shapes.now }
    ensures { IfOk result (λ apart. apart ≡ true → AreApart facing shapes.now) }
{
    let edges = edges_of(alloc, shapes, facing)?;
    Ok(are_clear(edges.as_slice()))
}

// Up to which numbers the ends and the starts so far go.
#[derive(Clone, Copy)]
struct Reached {
    ended: u128,
    begun: u128,
}

// Whether no end has a square of a start. Edges in the order of their numbers are told apart as far as they are.
fn are_clear(edges: &[Edge]) -> bool
    ensures { result ≡ true → AreClear edges.now }
{
    let mut reached = Reached { ended: 0, begun: 0 };
    for edge in edges {
        match passed(edge, reached) {
            Some(next) => reached = next,
            None => return false,
        }
    }
    true
}

// With the edge too, if it begins past all of the other kind.
fn passed(edge: &Edge, reached: Reached) -> Option<Reached>
    ensures { IfSome result (λ next. Passes edge.now reached next) }
{
    if edge.begins {
        if edge.from < reached.ended {
            return None;
        }
        return Some(Reached {
            begun: reached.begun.max(edge.to),
            ..reached
        });
    }
    if edge.from < reached.begun {
        return None;
    }
    Some(Reached {
        ended: reached.ended.max(edge.to),
        ..reached
    })
}
