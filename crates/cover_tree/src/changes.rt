//! The cells of a part whose colours change.

ghost use Rattle.std.specs.Prelude.{ℕ, ◌≡◌, ◌*◌, ◌+◌, ◌<◌, ◌≤◌, IfOk, length};
ghost use Rattle.lam_geom.specs.declared.layer.Layer.{Layer};
ghost use Rattle.cover_tree.specs.Parts.{IsSmall};
ghost use Rattle.cover_tree.specs.Nodes.{layers_of};
ghost use Rattle.cover_tree.specs.Kinds.{further, set_colour};
ghost use Rattle.cover_tree.specs.Layered.{tree, told_tree};
ghost use Rattle.cover_tree.specs.Looking.{own_at, IsHandedDown};
ghost use Rattle.cover_tree.specs.Notes.{AreNoted, IsTold, IsOnlyIn};
ghost use Rattle.cover_tree.specs.Changing.{IsChange, Tells, Turns, was, is, with_last};

use crate::kinds::Effect;
use crate::layer_set::LayerSet;
use crate::palette::Palette;
use crate::part::Part;
use crate::trees::Trees;
use mask_runs::Run;
use mp_base::NoMemory;
use std::alloc::AllocError;

/// The layers that cover a part as a whole, in the row told last and in the next.
#[derive(Clone, Copy)]
pub(crate) struct Known {
    pub before: LayerSet,
    pub after: LayerSet,
}

impl Known {
    ghost use Rattle.cover_tree.specs.Nodes.{no_layers};

    /// No layer.
    pub fn none() -> Known
        ensures { result ≡ record { before = no_layers; after = no_layers } }
    {
        Known {
            before: LayerSet::none(),
            after: LayerSet::none(),
        }
    }
}

/// What becomes of the colours of a part's cells: all stay, or all turn to one, or neither is known.
#[derive(Clone, Copy)]
pub(crate) enum Change {
    Nowhere,
    Everywhere(u8),
    Somewhere,
}

/// Tells a part in the row of the trees: adds the pieces of its cells whose colours aren't those told last, of which
/// `last` is open. Once memory is wanting the pieces are lost, but the part is told.
pub(crate) fn tell_part(
    trees: &mut Trees,
    palette: &Palette,
    part: Part,
    known: Known,
    last: &mut Result<Run, NoMemory>,
    pieces: &mut Vec<Run>,
)
    requires small { IsSmall part }
    requires room { part.at + 2 * part.width ≤ length trees.old.nodes.items + 1 }
    requires further { trees.old.further ≡ further palette.now.mask }
    requires noted { AreNoted trees.old part }
    ensures noted { AreNoted trees.new part }
    ensures told { IsTold trees.new part }
    ensures only { IsOnlyIn part trees.old trees.new }
    ensures tops { (l : Layer) → tree trees.new l ≡ tree trees.old l }
    ensures pieces { Tells (was palette.now.mask trees.old part known) (is palette.now.mask trees.old part known)
        pieces.old.items pieces.new.items last.old last.new part.base (part.base + part.width) }
{
    if trees.since < trees.note_at(part.at).until {
        if known.before == known.after {
            return;
        }
        tell_noted(trees, palette, part, known, last, pieces);
        return;
    }
    let own = trees.own_at(part.at);
    let down = handed_down(trees, part, own, known);
    if part.width < 2 {
        trees.settle(part, own);
        tell_cell(palette, part, down, last, pieces);
        return;
    }
    tell_part(trees, palette, part.left(), down, last, pieces);
    tell_part(trees, palette, part.right(), down, last, pieces);
    trees.settle(part, own);
}

// Does so where the part is told, but for the layers that cover it as a whole.
fn tell_noted(
    trees: &Trees,
    palette: &Palette,
    part: Part,
    known: Known,
    last: &mut Result<Run, NoMemory>,
    pieces: &mut Vec<Run>,
)
    requires small { IsSmall part }
    requires further { trees.now.further ≡ further palette.now.mask }
    requires noted { AreNoted trees.now part }
    ensures { Tells (was palette.now.mask trees.now part known) (is palette.now.mask trees.now part known)
        pieces.old.items pieces.new.items last.old last.new part.base (part.base + part.width) }
{
    match change_of(trees, palette, part, known) {
        Change::Nowhere => {}
        Change::Everywhere(colour) => add(pieces, last, part, colour),
        Change::Somewhere => {
            let down = handed_down(trees, part, trees.own_at(part.at), known);
            if part.width < 2 {
                tell_cell(palette, part, down, last, pieces);
                return;
            }
            tell_noted(trees, palette, part.left(), down, last, pieces);
            tell_noted(trees, palette, part.right(), down, last, pieces);
        }
    }
}

/// Adds the open piece, unless it is empty.
pub(crate) fn close(pieces: &mut Vec<Run>, last: Run) -> Result<(), AllocError>
    ensures { IfOk result (λ _. pieces.new.items ≡ with_last pieces.old.items last) }
{
    if last.left < last.right {
        pieces.push(last)?;
    }
    Ok(())
}

// Adds the part's cells, which turn to a colour, to the open piece or as the next one.
fn add(pieces: &mut Vec<Run>, last: &mut Result<Run, NoMemory>, part: Part, colour: u8)
    requires small { IsSmall part }
    ensures { (before after : ℕ → ℕ) → Turns before after part colour
        → Tells before after pieces.old.items pieces.new.items last.old last.new part.base (part.base + part.width) }
{
    let open = match *last {
        Ok(open) => open,
        Err(_) => return,
    };
    if open.right == part.base && open.colour == colour {
        *last = Ok(Run {
            right: part.end(),
            ..open
        });
        return;
    }
    *last = match close(pieces, open) {
        Ok(()) => Ok(Run {
            left: part.base,
            right: part.end(),
            colour,
        }),
        Err(_) => Err(NoMemory),
    };
}

// Adds the cell of a part that has but one, of which all layers are known, if it changes its colour.
fn tell_cell(
    palette: &Palette,
    part: Part,
    known: Known,
    last: &mut Result<Run, NoMemory>,
    pieces: &mut Vec<Run>,
)
    requires small { IsSmall part }
    ensures { Tells (λ _. set_colour palette.now.mask known.before) (λ _. set_colour palette.now.mask known.after)
        pieces.old.items pieces.new.items last.old last.new part.base (part.base + part.width) }
{
    if known.before == known.after {
        return;
    }
    let colour = palette.colour(known.after);
    if palette.colour(known.before) == colour {
        return;
    }
    add(pieces, last, part, colour);
}

// What becomes of the part's cells, as far as its note tells it.
fn change_of(trees: &Trees, palette: &Palette, part: Part, known: Known) -> Change
    requires further { trees.now.further ≡ further palette.now.mask }
    requires noted { AreNoted trees.now part }
    ensures { IsChange palette.now.mask trees.now part known result }
{
    let note = trees.note_at(part.at);
    if note.until <= trees.since {
        return Change::Somewhere;
    }
    if known.before == known.after {
        return Change::Nowhere;
    }
    match note.kinds.effect(palette, known.before, known.after) {
        Effect::Nowhere => Change::Nowhere,
        Effect::Everywhere => match note.kinds.colour(palette, known.after) {
            Some(colour) => Change::Everywhere(colour),
            None => Change::Somewhere,
        },
        Effect::Somewhere => Change::Somewhere,
    }
}

// The layers that cover the part as a whole, by its node too, whose layers in the row are `own`.
fn handed_down(trees: &Trees, part: Part, own: LayerSet, known: Known) -> Known
    requires { layers_of trees.now.further own ≡ own_at trees.now trees.now.since part.at }
    ensures before { IsHandedDown (told_tree trees.now) 0 part
        (layers_of trees.now.further known.before) (layers_of trees.now.further result.before) }
    ensures after { IsHandedDown (tree trees.now) trees.now.since part
        (layers_of trees.now.further known.after) (layers_of trees.now.further result.after) }
{
    Known {
        before: known.before.union(trees.told_at(part.at)),
        after: known.after.union(own),
    }
}
