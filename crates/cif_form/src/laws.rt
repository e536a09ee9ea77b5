//! Laws of CIF's text and of what it draws, for the proofs of crates above. A call of one does nothing.

ghost use Rattle.std.specs.Prelude.{◌≡◌, ℕ, List, ◌∷◌, ◌++◌, All, Some, map, false};
ghost use Rattle.cif_form.specs.declared.command.Command.{Command};
ghost use Rattle.cif_form.specs.declared.command.Item.{Item};
ghost use Rattle.cif_form.specs.Text.{◌▹◌, Byte, Blanks, Reads};
ghost use Rattle.cif_form.specs.Fits.{Fits};
ghost use Rattle.cif_form.specs.Scans.{TextEnd, IsReadAs, HasBig, FileScans, Nests};
ghost use Rattle.cif_form.specs.Readers.{command_from};
ghost use Rattle.cif_form.specs.Laws.{ExpansionIsUnique, PlainExpansionIsUnique, WalkIsUnique, PlainWalkIsUnique};
ghost use Rattle.cif_form.specs.Laws.{WalkIsExpansion};
ghost use Rattle.cif_form.specs.Writing.{written, placed_items};
ghost use Rattle.cif_form.specs.Counts.{WalkIsCounted, CountKeepsLimit};

/// The law of writing: what is written of commands that fit is read as the same commands, each at the offset where it
/// was written, whatever blanks follow each semicolon and the end.
pub fn written_is_read()
    ensures { (semi last : List ℕ) → (Byte 59 ▹ Blanks) semi → Blanks last → (cs : List Command) → All Fits cs
        → (offset : ℕ) → Reads offset (written semi last cs) (placed_items semi offset cs) }
{}

/// The law of whole files: what is written of commands that fit, each where it may stand, breaks no rule of texts.
pub fn written_is_whole()
    ensures { (semi last : List ℕ) → (Byte 59 ▹ Blanks) semi → Blanks last → (cs : List Command) → All Fits cs
        → Nests false cs
        → FileScans (written semi last cs) (placed_items semi 0 cs) TextEnd.Whole }
{}

/// A text has at most one reading as commands with their offsets.
pub fn reading_is_unique()
    ensures { (offset : ℕ) (text : List ℕ) (items others : List Item)
        → Reads offset text items → Reads offset text others → items ≡ others }
{}

/// The squares that commands draw are determined, and their rectangles where no command is a polygon.
pub fn expansion_is_unique()
    ensures squares { ExpansionIsUnique }
    ensures rectangles { PlainExpansionIsUnique }
{}

/// The squares that a walk draws, its labels and how it ends are determined: there is one first broken rule, or none;
/// and its rectangles are, where no command is a polygon.
pub fn walk_is_unique()
    ensures squares { WalkIsUnique }
    ensures rectangles { PlainWalkIsUnique }
{}

/// A walk that breaks no rule draws the expansion of its commands.
pub fn walk_is_expansion()
    ensures { WalkIsExpansion }
{}

/// How the reading of a file ends, and with what commands, is determined: there is one first broken rule, or none.
pub fn scan_is_unique()
    ensures { (text : List ℕ) (items others : List Item) (end last : TextEnd)
        → FileScans text items end → FileScans text others last → (items ≡ others) × (end ≡ last) }
{}

/// The reader that is a function finds each command that the grammar reads.
pub fn command_is_found()
    ensures { (text : List ℕ) (c : Command) (size : ℕ) (rest : List ℕ) (r : IsReadAs text c size rest)
        → command_from text ≡ Some (c, r.blanks ++ (59 ∷ rest)) }
{}

/// A command that is read fits, if none of its numbers is too big.
pub fn read_command_fits()
    ensures { (text : List ℕ) (c : Command) (size : ℕ) (rest : List ℕ) → IsReadAs text c size rest → ¬ HasBig c
        → Fits c }
{}

/// The commands of a file that breaks no rule of texts fit, and each may stand where it does.
pub fn scanned_commands_fit()
    ensures { (text : List ℕ) (items : List Item) → FileScans text items TextEnd.Whole
        → All Fits (map (λ i. i.command) items) × Nests false (map (λ i. i.command) items) }
{}

/// A file that breaks no rule of texts reads as its commands.
pub fn scan_is_reading()
    ensures { (text : List ℕ) (items : List Item) → FileScans text items TextEnd.Whole → Reads 0 text items }
{}

/// A walk that breaks no rule counts what its commands count, which is within the limit; and commands that count no
/// more than the limit don't break F7.
pub fn walk_is_counted()
    ensures whole { WalkIsCounted }
    ensures limit { CountKeepsLimit }
{}
