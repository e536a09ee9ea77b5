//! Whole files and whole texts, through the calls that take a piece.

ghost use Rattle.std.specs.Prelude.{◌≡◌, ◌⊎◌, ◌<◌, ◌≤◌, ◌+◌, ◌^◌, ℕ, List, length, take, IfSome, IfOk, OnOk, OnErr};
ghost use Rattle.std.specs.Prelude.{IsErrOf, vec_len};
ghost use Rattle.std.specs.FinMap as map;
ghost use Rattle.outside.specs.Outside.{WhereTold, Keeps, HasCause, IsStray, IsHeld, Gains, Grows};
ghost use Rattle.outside.specs.Transfer.{IsReading, AddsPiece, SizeGrows, FileReadHasCause, Holds, HoldsPart};
ghost use Rattle.outside.specs.declared.transfer.ReadError.TheVariants.{Failed, NoMemory};
ghost use Rattle.outside.specs.Piece.{TakesAll};

use crate::calls::{Depot, Failed, Sink};
use mp_base::NoMemory;
use std::alloc::{AllocError, Global};

/// Writes all the bytes.
#[tactic(auto, using(crate::proofs::FilesLemmas::gains_piece))]
pub fn write_all<O: Sink>(out: &mut O, text: &[u8]) -> Result<(), Failed>
    ensures taken { TakesAll Gains (O.held out.old) (O.held out.new) text.now result }
    ensures cause { HasCause (O.faults out.old) (O.faults out.new) result }
{
    let mut at: usize = 0;
    while at < text.len() {
        at += out.write(&text[at..])?;
    }
    Ok(())
}

/// Puts all the bytes at the end of a file.
#[tactic(auto, using(crate::proofs::FilesLemmas::grows_piece))]
pub fn append_all<D: Depot>(depot: &mut D, name: &str, bytes: &[u8]) -> Result<(), Failed>
    requires { IsHeld (D.held depot.old) name.now }
    ensures taken { TakesAll (Grows name.now) (D.held depot.old) (D.held depot.new) bytes.now result }
    ensures cause { HasCause (D.write_faults depot.old) (D.write_faults depot.new) result }
    ensures reads { D.read_faults depot.new ≡ D.read_faults depot.old }
{
    let mut at: usize = 0;
    while at < bytes.len() {
        at += depot.append(name, &bytes[at..])?;
    }
    Ok(())
}

/// Makes the file hold these bytes.
pub fn store<D: Depot>(depot: &mut D, name: &str, bytes: &[u8]) -> Result<(), Failed>
    ensures stored { OnOk result (WhereTold (Holds name.now bytes.now) (D.held depot.old) (D.held depot.new)) }
    ensures cut { OnErr result (WhereTold (HoldsPart name.now bytes.now) (D.held depot.old) (D.held depot.new)) }
    ensures cause { HasCause (D.write_faults depot.old) (D.write_faults depot.new) result }
    ensures reads { D.read_faults depot.new ≡ D.read_faults depot.old }
{
    depot.create(name)?;
    append_all(depot, name, bytes)
}

const PIECE: usize = 65536;

/// Why a file was not read.
#[derive(Clone, Copy, Debug, PartialEq, Eq)]
pub enum ReadError {
    Failed,
    NoMemory,
}

impl From<Failed> for ReadError {
    ghost from_gives = { λ _ e. e ≡ Failed };

    fn from(_: Failed) -> Self {
        ReadError::Failed
    }
}

impl From<AllocError> for ReadError {
    ghost from_gives = { λ _ e. e ≡ NoMemory };

    fn from(_: AllocError) -> Self {
        ReadError::NoMemory
    }
}

/// Why a text was not written: a call failed, or memory was wanting.
#[derive(Clone, Copy, Debug, PartialEq, Eq)]
pub enum Fault {
    Write,
    NoMemory,
}

impl From<Failed> for Fault {
    ghost use Rattle.outside.specs.declared.transfer.Fault.TheVariants.{Write};

    ghost from_gives = { λ _ e. e ≡ Write };

    fn from(_: Failed) -> Self {
        Fault::Write
    }
}

impl From<AllocError> for Fault {
    ghost use Rattle.outside.specs.declared.transfer.Fault.TheVariants as faults;

    ghost from_gives = { λ _ e. e ≡ faults.NoMemory };

    fn from(_: AllocError) -> Self {
        Fault::NoMemory
    }
}

impl From<NoMemory> for Fault {
    ghost use Rattle.outside.specs.declared.transfer.Fault.TheVariants as faults;

    ghost from_gives = { λ _ e. e ≡ faults.NoMemory };

    fn from(_: NoMemory) -> Self {
        Fault::NoMemory
    }
}

// A buffer. Its length is a parameter: a proof would count a numeral of this size out.
fn buffer(alloc: Global, size: usize) -> Result<Vec<u8>, AllocError>
    ensures { IfOk result (λ room. vec_len room ≡ size) }
{
    vec![in alloc; 0u8; size]
}

// Reads the next piece of a file behind what was read, and says whether there was one.
fn read_piece<D: Depot>(
    depot: &mut D,
    name: &str,
    text: &mut Vec<u8>,
    room: &mut [u8],
) -> Result<bool, ReadError>
    requires { 0 < length room.old }
    ensures held { Keeps (D.held depot.old) (D.held depot.new) }
    ensures piece { IfOk result (λ more. IfSome (D.held depot.new)
        (λ files. AddsPiece (map.get files name.now) text.old.items text.new.items more)) }
    ensures size { IfOk result (λ more. SizeGrows (vec_len text.old) (vec_len text.new) (length room.old) more) }
    ensures cause { FileReadHasCause (D.read_faults depot.old) (D.read_faults depot.new)
        (IsStray (D.held depot.new) name.now) result }
    ensures writes { D.write_faults depot.new ≡ D.write_faults depot.old }
{
    let count = depot.read_at(name, text.len() as u64, room)?;
    text.extend_from_slice(&room[..count])?;
    Ok(count > 0)
}

/// Reads a file to its end, or one byte past the limit, where it answers that there is more.
pub fn read_file<D: Depot>(
    alloc: Global,
    depot: &mut D,
    name: &str,
    limit: usize,
) -> Result<Option<Vec<u8>>, ReadError>
    requires { limit < 2 ^ 32 }
    ensures held { Keeps (D.held depot.old) (D.held depot.new) }
    ensures bytes { IfOk result
        (λ text. IfSome (D.held depot.new) (λ files. IsReading (map.get files name.now) limit text)) }
    ensures within { IfOk result (λ text. IfSome text (λ all. vec_len all ≤ limit)) }
    ensures cause { FileReadHasCause (D.read_faults depot.old) (D.read_faults depot.new)
        (IsStray (D.held depot.new) name.now) result }
    ensures writes { D.write_faults depot.new ≡ D.write_faults depot.old }
{
    let mut text = Vec::new(alloc);
    let mut piece = buffer(alloc, PIECE)?;
    while text.len() <= limit {
        let room = PIECE.min(limit - text.len() + 1);
        if !read_piece(depot, name, &mut text, &mut piece[..room])? {
            return Ok(Some(text));
        }
    }
    Ok(None)
}
