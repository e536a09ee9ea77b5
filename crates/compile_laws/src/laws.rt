//! Laws: a call of one does nothing, and tells the caller's proof what it ensures.

ghost use Rattle.mp_rules.specs.Breaking.{IsUnbroken};
ghost use Rattle.compile_laws.specs.Laws.{MakesChips};

use cif_form::laws::{written_is_read, written_is_whole};
use lam_geom::laws::extents_are_determined;
use mask_laws::laws::{masks_draw_networks, squares_tell_masks};
use mp_order::laws::one_trace;
use mp_program::{Program, laws};
use switch_net::laws::circuits_run;

/// Of a program that breaks no rule: transfers that show what it shows, a bounded plan that follows the transfers and
/// commands that draw the plan make a chip of the program, as small as its weight and word length say.
pub fn chips_are_made(program: &Program)
    requires { IsUnbroken program.now }
    ensures { MakesChips program.now }
{
    laws::sound(program);
    one_trace(program);
    written_is_read();
    written_is_whole();
    squares_tell_masks();
    extents_are_determined();
    circuits_run();
    masks_draw_networks();
}
