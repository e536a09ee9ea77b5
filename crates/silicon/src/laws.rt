//! Laws of commands: a call of one does nothing, and tells the caller's proof what it ensures.

ghost use Rattle.std.specs.Prelude.{◌≡◌, ◌⊎◌, List, Option, Some, None, ◌≢◌};
ghost use Rattle.outside.specs.Outside.{Files};
ghost use Rattle.command_line.specs.Command.{Command};
ghost use Rattle.outcome.specs.Order.{Fault};
ghost use Rattle.outcome.specs.World.{World};
ghost use Rattle.outcome.specs.declared.status.Status.{Status};
ghost use Rattle.outcome.specs.declared.status.Status.TheVariants.{Usage, ReadFault, WriteFault, NoMemory};
ghost use Rattle.replay_command.specs.Replayed.{ReplaysFollow};
ghost use Rattle.board.specs.Face.{Face};
ghost use Rattle.board_command.specs.Parts.{Lent};
ghost use Rattle.board_command.specs.Played.{PlaysFollow};
ghost use Rattle.silicon.specs.Faults.{IsFirstFault};
ghost use Rattle.silicon.specs.Complete.{IsRun, AnyRose, AnyGreater, CountsNothing, status_by};
ghost use Rattle.silicon.specs.ReadBack.{CompiledFilesAreRead};

use board_command::laws::{a_link_fault, one_link_fault, plays_follow};
use mask_files::laws::{a_drawing_fault, a_mask_fault, one_drawing_fault, one_mask_fault};
use replay_command::laws::replays_follow as circuits_follow;
use replay_run::laws::chips_run;
use sim_command::laws::{a_circuit_fault, one_circuit_fault};
use source_files::laws::{a_fault, one_fault};

/// A command has one first fault at most on the same files, with the same parts lent.
pub fn one_first_fault()
    ensures { (lent : Lent) (command : Command) (files : Files) (a b : Option Fault)
        → IsFirstFault lent command files a → IsFirstFault lent command files b → a ≡ b }
{
    one_fault();
    one_mask_fault();
    one_drawing_fault();
    one_circuit_fault();
    one_link_fault();
}

/// A command has a verdict on all files, whatever parts are lent: a first fault, or that there is none.
pub fn a_first_fault()
    ensures { (lent : Lent) (command : Command) (files : Files)
        → (fault : Option Fault) × IsFirstFault lent command files fault }
{
    a_fault();
    a_mask_fault();
    a_drawing_fault();
    a_circuit_fault();
    a_link_fault();
}

/// What the clauses `words`, `causes` and `content` of a run leave no choice of. Where no count of faults rose, a
/// command on files that are told has a verdict on them, and ends as this says, or wants memory: it is done where no
/// rule is broken and each file is held, it refuses where a rule is broken first, and it tells a read fault where a
/// file isn't held. On all files there is one verdict, and no other (`a_first_fault`, `one_first_fault`), so no files
/// are left out. Over files and an output whose counts are 0,
/// as those of doubles that never fail, no count rises (`still`, `quiet`). Words in no form end with the usage line, or want memory. Over files that aren't told no fault is
/// answered, and where a count is greater a fault is.
pub fn completeness()
    ensures owed { (lent : Lent) (left : List Face) (command : Command) (status : Status) (before after : World)
        (old new : Files) → IsRun lent left (Some command) status before after
        → before.files ≡ Some old → after.files ≡ Some new → ¬ AnyRose before after
        → (fault : Option Fault) × IsFirstFault lent command old fault
        × ((status ≡ status_by fault) ⊎ (status ≡ NoMemory)) }
    ensures quiet { (lent : Lent) (left : List Face) (command : Command) (status : Status) (before after : World)
        (old new : Files) → IsRun lent left (Some command) status before after
        → before.files ≡ Some old → after.files ≡ Some new → CountsNothing before → CountsNothing after
        → (fault : Option Fault) × IsFirstFault lent command old fault
        × ((status ≡ status_by fault) ⊎ (status ≡ NoMemory)) }
    ensures still { (before after : World) → CountsNothing before → CountsNothing after → ¬ AnyRose before after }
    ensures usage { (lent : Lent) (left : List Face) (status : Status) (before after : World)
        → IsRun lent left None status before after → ¬ AnyRose before after
        → (status ≡ Usage) ⊎ (status ≡ NoMemory) }
    ensures untold { (lent : Lent) (left : List Face) (words : Option Command) (status : Status) (before after : World)
        → IsRun lent left words status before after → after.files ≡ None → ¬ AnyRose before after
        → status ≢ ReadFault × status ≢ WriteFault }
    ensures faults { (lent : Lent) (left : List Face) (words : Option Command) (status : Status) (before after : World)
        → IsRun lent left words status before after → AnyGreater before after
        → (status ≡ ReadFault) ⊎ (status ≡ WriteFault) }
{
    one_first_fault();
    a_first_fault();
}

/// Of a file that `compile` wrote, or another command that writes the masks of a source, `net` finds no fault: it is no
/// longer than may be read, and breaks no rule.
pub fn compiled_files_are_read()
    ensures { CompiledFilesAreRead }
{
    chips_run();
}

/// What a replay of a compiled chip shows in each settled clock is what the source's program shows: the line is that of
/// its transcript.
pub fn replays_follow()
    ensures { ReplaysFollow }
{
    circuits_follow();
}

/// What a compiled chip shows on a board in each settled clock is what the source's program shows there with the same
/// parts and swaps, and the parts move alike.
pub fn boards_follow()
    ensures { PlaysFollow }
{
    plays_follow();
}
