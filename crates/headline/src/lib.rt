//! The headline: what it means that the masks in a file do what a program says.
#![tactic(auto)]

ghost use Rattle.std.specs.Prelude.{◌≡◌, ℕ, List};
ghost use Rattle.mp_base.specs.declared.pad.Pads.{Pads};
ghost use Rattle.switch_net.specs.declared.network.Network.{Network};
ghost use Rattle.headline.specs.Headline.{Draws};

use cif_form::laws::{reading_is_unique, walk_is_unique};
use mask_laws::laws::squares_tell_masks;
use switch_net::laws::network_is_determined;

/// A file draws at most one network: nothing is left open between its bytes and its circuit.
pub fn a_file_draws_one_network()
    ensures { (bytes : List ℕ) (pads other : Pads) (n m : Network) → Draws bytes pads n → Draws bytes other m → n ≡ m }
{
    reading_is_unique();
    walk_is_unique();
    squares_tell_masks();
    network_is_determined();
}
