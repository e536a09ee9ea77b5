//! Files and an output, by what they hold where they tell it, and by the counts of their faults.

ghost use Rattle.std.specs.Prelude.{◌≡◌, ℕ, List, length, Option, IfSome, IfOk, OnOk, OnErr};
ghost use Rattle.std.specs.FinMap as map;
ghost use Rattle.std.specs.Io.{ReadsAtMost};
ghost use Rattle.outside.specs.Outside.{Files, WhereTold, Keeps, HasCause, ReadHasCause, GivesPiece, IsStray};
ghost use Rattle.outside.specs.Outside.{IsHeld, Creates, Grows, Gains};
ghost use Rattle.outside.specs.Piece.{TakesPiece};

/// A call failed.
#[derive(Clone, Copy, Debug, PartialEq, Eq)]
pub struct Failed;

pub trait Depot {
    /// The files, where the depot tells them.
    ghost held: { Self → Option Files };

    ghost read_faults: { Self → ℕ };

    ghost write_faults: { Self → ℕ };

    /// Reads a piece of a file. With a buffer that isn't empty, 0 says that the file ends there.
    fn read_at(&mut self, name: &str, at: u64, buf: &mut [u8]) -> Result<usize, Failed>
        ensures bound { ReadsAtMost result buf.new }
        ensures held { Keeps (held self.old) (held self.new) }
        ensures bytes { IfOk result
            (λ n. IfSome (held self.new) (λ files. GivesPiece (map.get files name.now) at n buf.new)) }
        ensures cause { ReadHasCause (read_faults self.old) (read_faults self.new)
            (IsStray (held self.new) name.now) result }
        ensures writes { write_faults self.new ≡ write_faults self.old };

    /// Makes a file, or empties it.
    fn create(&mut self, name: &str) -> Result<(), Failed>
        ensures ok { OnOk result (WhereTold (Creates name.now) (held self.old) (held self.new)) }
        ensures err { OnErr result (Keeps (held self.old) (held self.new)) }
        ensures cause { HasCause (write_faults self.old) (write_faults self.new) result }
        ensures reads { read_faults self.new ≡ read_faults self.old };

    /// Puts a first part of the piece at the end of a file, at least one byte of a piece that isn't empty.
    fn append(&mut self, name: &str, bytes: &[u8]) -> Result<usize, Failed>
        requires { IsHeld (held self.old) name.now }
        ensures taken { TakesPiece (Grows name.now) (held self.old) (held self.new) bytes.now result }
        ensures cause { HasCause (write_faults self.old) (write_faults self.new) result }
        ensures reads { read_faults self.new ≡ read_faults self.old };
}

pub trait Sink {
    /// The bytes, where the sink tells them.
    ghost held: { Self → Option (List ℕ) };

    ghost faults: { Self → ℕ };

    /// Takes a first part of the piece, at least one byte of a piece that isn't empty.
    fn write(&mut self, bytes: &[u8]) -> Result<usize, Failed>
        ensures taken { TakesPiece Gains (held self.old) (held self.new) bytes.now result }
        ensures cause { HasCause (faults self.old) (faults self.new) result };
}
