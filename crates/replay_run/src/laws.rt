//! Laws of chips that run: a call of one does nothing, and tells the caller's proof what it ensures.

ghost use Rattle.replay_run.specs.Laws.{ChipsDraw, ChipsHavePads, OnePads, ReplaysFollow};

use mask_net::laws::{one_network, sound_with_pads};

/// A program has the same pads everywhere.
pub fn one_pads()
    ensures { OnePads }
{}

/// The bytes of a chip break no rule of masks, and the network that they draw has the pads of the program.
pub fn chips_run()
    ensures draws { ChipsDraw }
    ensures padded { ChipsHavePads }
{
    one_pads();
    one_network();
    sound_with_pads();
}

/// The replay of a chip shows in each settled clock what the program shows.
pub fn replays_follow()
    ensures { ReplaysFollow }
{
    one_pads();
    one_network();
    sound_with_pads();
}
