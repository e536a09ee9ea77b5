//! Parts that take the place of others.

ghost use Rattle.std.specs.Prelude.{◌≡◌, ◌<◌, length, map, string_bytes};
ghost use Rattle.board.specs.Face.{Face};
ghost use Rattle.board.specs.Loop.{part_of, put_at};

use crate::link::Link;
use crate::part::{NamedPart, Part};
use mp_base::List;

// Drops the part of an entry, and puts another in its place.
fn replace(part: &mut NamedPart, fresh: Box<dyn Part>)
    ensures part { part.new.part ≡ fresh }
    ensures name { part.new.name ≡ part.old.name }
{
    part.part = fresh;
}

/// Drops the part of the link with this index, and puts another in its place.
pub(crate) fn put(links: &List<Link>, parts: &mut Vec<NamedPart>, link: u32, fresh: Box<dyn Part>)
    requires link { link < length links.now }
    requires part { part_of links.now link < length parts.old.items }
    ensures names { map (λ p. string_bytes p.name) parts.new.items ≡ map (λ p. string_bytes p.name) parts.old.items }
    ensures faces { let faces = map (λ p. let f : Face = record {
      state = state p.part;
      drives = (⟦<dyn Part as Part>⟧ p.part.vtable).driven_in;
      sees = (⟦<dyn Part as Part>⟧ p.part.vtable).after_seeing;
    } in f) in
        let own : Face = record {
          state = state fresh;
          drives = (⟦<dyn Part as Part>⟧ fresh.vtable).driven_in;
          sees = (⟦<dyn Part as Part>⟧ fresh.vtable).after_seeing;
        } in faces parts.new.items ≡ put_at own (part_of links.now link) (faces parts.old.items) }
{
    let part = links.at(link).part;
    replace(&mut parts[part as usize], fresh);
}
