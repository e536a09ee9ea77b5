//! Laws of boards: a call of one does nothing, and tells the caller's proof what it ensures.

ghost use Rattle.std.specs.Prelude.{◌≡◌, ℕ, List, Option};
ghost use Rattle.outside.specs.Outside.{Files};
ghost use Rattle.outcome.specs.Order.{Fault};
ghost use Rattle.board_command.specs.Parts.{Lent};
ghost use Rattle.board_command.specs.Played.{PlaysFollow};
ghost use Rattle.board_command.specs.Work.{work};

use board::laws::{one_plan, plan_verdict};
use board_run::laws::swapped_boards_follow;
use mp_source::laws::one_source;
use replay_run::laws::one_pads;
use source_files::laws::{a_fault, one_fault};

/// A source with links and swaps has one first fault at most.
pub fn one_link_fault()
    ensures { (lent : Lent) (source cif : List ℕ) (clocks : ℕ) (words : List (List ℕ)) (files : Files)
        (a b : Option Fault) → (work lent source cif clocks words).First files a
        → (work lent source cif clocks words).First files b → a ≡ b }
{
    one_fault();
    one_source();
    one_pads();
    one_plan();
}

/// A source with links and swaps has a verdict on all files: a first fault, or that there is none.
pub fn a_link_fault()
    ensures { (lent : Lent) (source cif : List ℕ) (clocks : ℕ) (words : List (List ℕ)) (files : Files)
        → (fault : Option Fault) × (work lent source cif clocks words).First files fault }
{
    a_fault();
    plan_verdict();
}

/// What a compiled chip shows on a board in each settled clock is what its source's program shows there with the same
/// swaps, and the parts move alike.
pub fn plays_follow()
    ensures { PlaysFollow }
{
    one_source();
    swapped_boards_follow();
}
