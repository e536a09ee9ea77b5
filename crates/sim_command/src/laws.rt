//! Laws of simulations: a call of one does nothing, and tells the caller's proof what it ensures.

ghost use Rattle.std.specs.Prelude.{◌≡◌, ℕ, List, Option};
ghost use Rattle.outside.specs.Outside.{Files};
ghost use Rattle.outcome.specs.Order.{Fault};
ghost use Rattle.sim_command.specs.Work.{work};

use mask_files::laws::{a_mask_fault, one_mask_fault};
use mask_laws::laws::masks_are_judged;
use mask_net::laws::one_network;
use source_files::laws::{a_fault, one_fault};
use stimulus::laws::one_stimulus;
use switch_net::laws::first_rule_is_determined;

/// Masks with a stimulus have one first fault at most.
pub fn one_circuit_fault()
    ensures { (cif stimulus : List ℕ) (files : Files) (a b : Option Fault) → (work cif stimulus).First files a
        → (work cif stimulus).First files b → a ≡ b }
{
    one_mask_fault();
    one_fault();
    one_network();
    one_stimulus();
    first_rule_is_determined();
}

/// Masks with a stimulus have a verdict on all files: a first fault, or that there is none.
pub fn a_circuit_fault()
    ensures { (cif stimulus : List ℕ) (files : Files)
        → (fault : Option Fault) × (work cif stimulus).First files fault }
{
    a_mask_fault();
    a_fault();
    masks_are_judged();
}
