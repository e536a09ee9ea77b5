//! Laws of verdicts: a call of one does nothing, and tells the caller's proof what it ensures.

ghost use Rattle.std.specs.Prelude.{List, map, false};
ghost use Rattle.lam_geom.specs.declared.rect.Rect.{Rect};
ghost use Rattle.lam_geom.specs.declared.label.FlatLabel.{FlatLabel};
ghost use Rattle.cif_form.specs.declared.command.Item.{Item};
ghost use Rattle.cif_form.specs.Scans.{Nests};
ghost use Rattle.cif_form.specs.Walk.{WalkEnd, FileWalks};

use poly_split::laws::polygons_are_split;

/// Commands each of which may stand where it does have a walk: it draws them whole, or one of F1 to F10 is the first
/// rule that it breaks, at a command's offset. The commands of a file stand so; they need not fit.
pub fn walks_exist()
    ensures { (items : List Item) → Nests false (map (λ i. i.command) items)
        → (shapes : List Rect) × (labels : List FlatLabel) × (end : WalkEnd) × FileWalks items shapes labels end }
{
    polygons_are_split();
}
