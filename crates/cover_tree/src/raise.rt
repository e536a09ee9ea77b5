//! The raising of a part.

ghost use Rattle.std.specs.Prelude.{◌≡◌, ◌≢◌};
ghost use Rattle.lam_geom.specs.declared.layer.Layer.{Layer};
ghost use Rattle.cover_tree.specs.Parts.{IsSmall, IsReached, IsPartRaised};
ghost use Rattle.cover_tree.specs.Layered.{tree, told_tree};
ghost use Rattle.cover_tree.specs.Notes.{HasPart, AreNoted, IsOnlyIn};

use crate::part::Part;
use crate::trees::Trees;
use lam_geom::Layer;

/// Covers the part's cells from `from` up to `to` with a layer in the rows below `row` besides. The notes of the parts
/// on the way are forgotten: where many raises come before the next row, each part is told and noted anew but once.
pub(crate) fn raise_part(trees: &mut Trees, layer: Layer, part: Part, from: u32, to: u32, row: u32)
    requires small { IsSmall part }
    requires reached { IsReached part from to }
    requires room { HasPart trees.old layer part }
    ensures raised { IsPartRaised (tree trees.old layer) (tree trees.new layer) part from to row }
    ensures others { (l : Layer) → l ≢ layer → tree trees.new l ≡ tree trees.old l }
    ensures told { (l : Layer) → told_tree trees.new l ≡ told_tree trees.old l }
    ensures noted { AreNoted trees.old part → AreNoted trees.new part }
    ensures only { IsOnlyIn part trees.old trees.new }
{
    trees.forget(part);
    if from <= part.base && part.end() <= to {
        trees.lift(layer, part.at, row);
        return;
    }
    let right = part.right();
    if to <= right.base {
        raise_part(trees, layer, part.left(), from, to, row);
    } else if right.base <= from {
        raise_part(trees, layer, right, from, to, row);
    } else {
        raise_part(trees, layer, part.left(), from, to, row);
        raise_part(trees, layer, right, from, to, row);
    }
}
