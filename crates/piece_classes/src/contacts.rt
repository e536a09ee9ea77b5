//! Links between pieces that contacts join.

ghost use Rattle.std.specs.Prelude.{◌≡◌, ◌≤◌, length, Some, None, OnOk, if◌then◌else◌};
ghost use Rattle.piece_classes.specs.Linking.{Gains, AreBoth, joins, IsContactLink};

use lam_geom::Layer;
use mask_tiles::Tile;
use mp_base::{List, NoMemory};
use union_find::Pair;

/// Links the pieces of the conductors that each contact joins. The three lists have the number of the piece that
/// conducts at each contact's first square, on metal, on polysilicon and on diffusion.
pub(crate) fn link_contacts(
    links: &mut List<Pair>,
    contacts: &[Tile],
    metal: &[Option<u32>],
    polysilicon: &[Option<u32>],
    diffusion: &[Option<u32>],
) -> Result<(), NoMemory>
    requires metal { length contacts.now ≤ length metal.now }
    requires polysilicon { length contacts.now ≤ length polysilicon.now }
    requires diffusion { length contacts.now ≤ length diffusion.now }
    ensures { OnOk result (Gains links.old links.new
        (IsContactLink contacts.now metal.now polysilicon.now diffusion.now (length contacts.now))) }
{
    for (i, contact) in contacts.iter().enumerate() {
        let upper = if_joined(contact.colour, Layer::NM, metal[i]);
        let middle = if_joined(contact.colour, Layer::NP, polysilicon[i]);
        let lower = if_joined(contact.colour, Layer::ND, diffusion[i]);
        link_both(links, upper, middle)?;
        link_both(links, upper, lower)?;
        link_both(links, middle, lower)?;
    }
    Ok(())
}

// The piece, where the contact joins the conductor of its layer.
fn if_joined(contact: u8, layer: Layer, piece: Option<u32>) -> Option<u32>
    ensures { result ≡ (if joins contact layer then piece else None) }
{
    let joins = match layer {
        Layer::NM => contact == 3 || contact == 5 || contact == 7,
        Layer::NP => contact == 3 || contact == 6 || contact == 7,
        Layer::ND => contact == 5 || contact == 6 || contact == 7,
        _ => false,
    };
    if joins { piece } else { None }
}

// Links the two, where both are there.
fn link_both(links: &mut List<Pair>, a: Option<u32>, b: Option<u32>) -> Result<(), NoMemory>
    ensures { OnOk result (Gains links.old links.new (AreBoth a b)) }
{
    if let (Some(a), Some(b)) = (a, b) {
        links.push(Pair { a, b })?;
    }
    Ok(())
}
