//! Laws of files of masks: a call of one does nothing, and tells the caller's proof what it ensures.

ghost use Rattle.std.specs.Prelude.{◌≡◌, ℕ, List, Option};
ghost use Rattle.outside.specs.Outside.{Files};
ghost use Rattle.outcome.specs.Order.{Fault};
ghost use Rattle.mask_files.specs.Faults.{DrawingFault, MaskFault};

use mask_net::laws::{one_drawing_verdict, one_verdict};
use mask_verdict::laws::file_verdict;

/// A file of masks has one first fault at most.
pub fn one_mask_fault()
    ensures { (cif : List ℕ) (files : Files) (a b : Option Fault) → MaskFault cif files a → MaskFault cif files b
        → a ≡ b }
{
    one_verdict();
}

/// A file of masks has a verdict on all files: a first fault, or that there is none.
pub fn a_mask_fault()
    ensures { (cif : List ℕ) (files : Files) → (fault : Option Fault) × MaskFault cif files fault }
{
    file_verdict();
}

/// A file has one first fault of texts and drawing at most.
pub fn one_drawing_fault()
    ensures { (cif : List ℕ) (files : Files) (a b : Option Fault) → DrawingFault cif files a
        → DrawingFault cif files b → a ≡ b }
{
    one_drawing_verdict();
}

/// A file has a verdict of texts and drawing on all files: a first fault, or that there is none.
pub fn a_drawing_fault()
    ensures { (cif : List ℕ) (files : Files) → (fault : Option Fault) × DrawingFault cif files fault }
{
    file_verdict();
}
