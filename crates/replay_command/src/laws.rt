//! A law of replays: a call of it does nothing, and tells the caller's proof what it ensures.

ghost use Rattle.replay_command.specs.Replayed.{ReplaysFollow};

use mp_source::laws::one_source;
use replay_run::laws::replays_follow as circuits_follow;

/// What a replay of a compiled chip shows in each settled clock is what the source's program shows: the line is that of
/// its transcript.
pub fn replays_follow()
    ensures { ReplaysFollow }
{
    one_source();
    circuits_follow();
}
