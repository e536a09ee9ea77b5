//! All conditions of soundness.

ghost use Rattle.std.specs.Prelude.{◌↔◌, ◌≤◌, IsTrue};
ghost use Rattle.rtl_form.specs.Sound.{IsSound};
ghost use Rattle.rtl_check.specs.Parts.{HasContents, HasPorts};

use crate::exprs::exprs_fit;
use crate::order::has_order;
use crate::pads::has_pads;
use crate::reset::has_reset;
use crate::transfers::transfers_fit;
use rtl_form::Rtl;

// Whether the width is one, and pads, cells and `reset` go together.
fn has_ports(rtl: &Rtl) -> bool
    ensures { IsTrue result ↔ HasPorts rtl.now }
{
    matches!(rtl.width, 1..=64) && has_pads(rtl) && has_reset(rtl)
}

// Whether expressions and transfers fit, and the order of evaluation is one.
fn has_contents(rtl: &Rtl) -> bool
    requires { rtl.now.width ≤ 64 }
    ensures { IsTrue result ↔ HasContents rtl.now }
{
    exprs_fit(rtl) && transfers_fit(rtl) && has_order(rtl)
}

/// Whether transfers fit together: exactly where all conditions of soundness hold. It takes no memory. Its time grows
/// with the number of ways in which an expression leads to others, as where arguments are shared heavily.
pub fn is_sound(rtl: &Rtl) -> bool
    ensures { IsTrue result ↔ IsSound rtl.now }
{
    has_ports(rtl) && has_contents(rtl)
}
