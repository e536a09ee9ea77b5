//! Laws of chips on boards: a call of one does nothing, and tells the caller's proof what it ensures.

ghost use Rattle.board_run.specs.Laws.{BoardsFollow, BoardsRun, PlainWords, PlansRun, SwappedBoardsFollow};
ghost use Rattle.board_run.specs.Laws.{SwappedBoardsRun};

use board::laws::{inputs_fit, swapped_loops_agree};
use board_laws::laws::swapped_chips_loop;
use mask_net::laws::{one_network, sound_with_pads};
use replay_run::laws::one_pads;
use switch_net::laws::circuits_run;

/// What a chip shows on a board in each settled clock is what its program shows there, and both leave the parts alike.
pub fn boards_follow()
    ensures { BoardsFollow }
{
    swapped_chips_loop();
    one_network();
    sound_with_pads();
    one_pads();
    swapped_loops_agree();
}

/// The same with swaps, which both make.
pub fn swapped_boards_follow()
    ensures { SwappedBoardsFollow }
{
    swapped_chips_loop();
    one_network();
    sound_with_pads();
    one_pads();
    swapped_loops_agree();
}

/// A circuit that has the board's pads runs there.
pub fn boards_run()
    ensures { BoardsRun }
{
    circuits_run();
    inputs_fit();
}

/// The same with swaps.
pub fn swapped_boards_run()
    ensures { SwappedBoardsRun }
{
    circuits_run();
    inputs_fit();
}

/// A plan that was read can be run with the parts that are left by its swaps.
pub fn plans_run()
    ensures { PlansRun }
{}

/// Words of which none is a swap stand for links alone, and their plan leaves every part in the list.
pub fn plain_words()
    ensures { PlainWords }
{}
