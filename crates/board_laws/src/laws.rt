//! Laws of chips on a board: a call of one does nothing, and tells the caller's proof what it ensures.

ghost use Rattle.board_laws.specs.Laws.{ChipsLoop, CircuitsLoop, SwappedChipsLoop, SwappedCircuitsLoop};

use board::laws::{inputs_fit, swapped_loops_agree};

/// The loop of a circuit is one of its network.
pub fn circuits_loop()
    ensures { CircuitsLoop }
{}

/// The same with swaps.
pub fn swapped_circuits_loop()
    ensures { SwappedCircuitsLoop }
{}

/// The loop of a chip shows in each settled clock what the loop of its program shows, and both leave the parts alike.
pub fn chips_loop()
    ensures { ChipsLoop }
{
    swapped_loops_agree();
    inputs_fit();
}

/// The same with swaps, which both loops make.
pub fn swapped_chips_loop()
    ensures { SwappedChipsLoop }
{
    swapped_loops_agree();
    inputs_fit();
}
