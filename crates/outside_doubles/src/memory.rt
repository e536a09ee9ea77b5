//! Files and an output in memory. A call whose number is in a list fails.

ghost use Rattle.std.specs.Prelude.{◌≡◌, ◌⊎◌, ◌+◌, ◌-◌, ◌^◌, ◌<◌, ◌≤◌, ◌==◌, ℕ, List, [], length, take, min, Some};
ghost use Rattle.std.specs.Prelude.{OnOk, OnErr, IfOk, IfSome, IsErr, IsSome, IsTrue};
ghost use Rattle.std.specs.List.{list_any};
ghost use Rattle.std.specs.Option.{option_copied};
ghost use Rattle.std.specs.Io.{ReadsAtMost};
ghost use Rattle.std.specs.FinMap as map;
ghost use Rattle.outside.specs.Outside.{Creates, Grows, Gains, GivesPiece, Rose, HasCause, ReadHasCause, IsStray};
ghost use Rattle.outside.specs.Outside.{IsHeld};
ghost use Rattle.outside.specs.Piece.{TakesPiece};
ghost use Rattle.outside_doubles.specs.Memory.{files_of, counted};

use mp_base::{List, NoMemory};
use outside::{Depot, Failed, Sink};
use std::alloc::{AllocError, Global};
use std::collections::BTreeMap;

type Texts = BTreeMap<String, Vec<u8>>;

// Sets a file.
fn set_text(files: &mut Texts, alloc: Global, name: &str, text: Vec<u8>) -> Result<(), AllocError>
    ensures ok { OnOk result (files_of files.new.entries
        ≡ map.insert (files_of files.old.entries) name.now text.items) }
    ensures err { OnErr result (files_of files.new.entries ≡ files_of files.old.entries) }
{
    let key = String::from_str(alloc, name)?;
    files.insert(key, text)?;
    Ok(())
}

// What a file holds.
fn text_of<'a>(files: &'a Texts, name: &str) -> Option<&'a [u8]>
    ensures { option_copied result ≡ map.get (files_of files.now.entries) name.now }
{
    match files.get(name) {
        Some(text) => Some(text.as_slice()),
        None => None,
    }
}

// Puts bytes at the end of a file that is there.
fn grow_text(files: &mut Texts, name: &str, bytes: &[u8]) -> Result<(), AllocError>
    requires { IsSome (map.get (files_of files.old.entries) name.now) }
    ensures ok { OnOk result (Grows name.now bytes.now (files_of files.old.entries) (files_of files.new.entries)) }
    ensures err { OnErr result (files_of files.new.entries ≡ files_of files.old.entries) }
{
    match files.get_mut(name) {
        Some(text) => text.extend_from_slice(bytes),
        None => Ok(()),
    }
}

/// Files in memory, of which an append takes at most a given number of bytes. Calls are numbered from 0.
#[derive(Drop)]
pub struct MemDepot {
    alloc: Global,
    files: Texts,
    take: usize,
    fail: List<u64>,
    calls: u64,
    read_faults: u64,
    write_faults: u64,
    ghost takes: { 0 < take },
}

impl MemDepot {
    ghost use Rattle.outside_doubles.specs.MemDepot.{files, number, listed, most, faults};

    /// No files yet. An append takes at most `take` bytes, and the calls that `fail` lists fail.
    pub fn new(alloc: Global, take: usize, fail: List<u64>) -> MemDepot
        requires { 0 < take }
        ensures empty { files result ≡ map.empty }
        ensures number { number result ≡ 0 }
        ensures listed { listed result ≡ fail }
        ensures most { most result ≡ take }
        ensures faults { faults result ≡ (0, 0) }
    {
        MemDepot {
            alloc,
            files: BTreeMap::new(alloc),
            take,
            fail,
            calls: 0,
            read_faults: 0,
            write_faults: 0,
        }
    }

    /// Sets a file. This is no numbered call.
    pub fn put(&mut self, name: &str, bytes: &[u8]) -> Result<(), NoMemory>
        ensures ok { OnOk result (files self.new ≡ map.insert (files self.old) name.now bytes.now) }
        ensures err { OnErr result (files self.new ≡ files self.old) }
        ensures number { number self.new ≡ number self.old }
        ensures listed { listed self.new ≡ listed self.old }
        ensures most { most self.new ≡ most self.old }
        ensures faults { faults self.new ≡ faults self.old }
    {
        let text = Vec::from_slice(self.alloc, bytes)?;
        set_text(&mut self.files, self.alloc, name, text)?;
        Ok(())
    }

    /// What a file holds.
    pub fn get(&self, name: &str) -> Option<&[u8]>
        ensures { option_copied result ≡ map.get (files self.now) name.now }
    {
        text_of(&self.files, name)
    }
}

// Whether the next call fails, by its number, which is counted.
fn next_fails(fail: &List<u64>, calls: &mut u64) -> bool
    ensures listed { result ≡ list_any (λ n. n == calls.old) fail.now }
    ensures counted { calls.new ≡ counted calls.old }
{
    let fails = fail.as_slice().contains(calls);
    *calls = calls.saturating_add(1);
    fails
}

// Counts a fault.
fn failed(faults: &mut u64) -> Failed
    ensures rose { Rose faults.old faults.new }
    ensures later { faults.old ≤ faults.new }
{
    *faults = faults.saturating_add(1);
    Failed
}

// Copies the part of a text from a place on that fits.
fn copy_from(text: &[u8], at: u64, buf: &mut [u8]) -> usize
    ensures bound { result ≤ length buf.new }
    ensures size { result ≡ length (take result buf.new) }
    ensures piece { GivesPiece (Some text.now) at result buf.new }
{
    let start = at.min(text.len() as u64) as usize;
    let rest = &text[start..];
    let count = buf.len().min(rest.len());
    buf[..count].copy_from_slice(&rest[..count]);
    count
}

impl Depot for MemDepot {
    ghost use Rattle.outside_doubles.specs.MemDepot.{files, number, listed, most, next_fails, IsNextCall};

    ghost held = { λ d. Some (files_of d.files.entries) };

    ghost read_faults = { λ d. d.read_faults };

    ghost write_faults = { λ d. d.write_faults };

    fn read_at(&mut self, name: &str, at: u64, buf: &mut [u8]) -> Result<usize, Failed>
        ensures bound { ReadsAtMost result buf.new }
        ensures held { files self.new ≡ files self.old }
        ensures bytes { IfOk result (λ n. GivesPiece (map.get (files self.new) name.now) at n buf.new) }
        ensures cause { ReadHasCause self.old.read_faults self.new.read_faults
            (map.get (files self.new) name.now ≡ None) result }
        ensures writes { self.new.write_faults ≡ self.old.write_faults }
        ensures listed { IsTrue (next_fails self.old) → IsErr result }
        ensures failed { OnErr result (IsTrue (next_fails self.old) ⊎ (map.get (files self.old) name.now ≡ None)) }
        ensures numbered { IsNextCall self.old self.new }
    {
        let fails = next_fails(&self.fail, &mut self.calls);
        let Some(text) = text_of(&self.files, name) else {
            return Err(Failed);
        };
        if fails {
            return Err(failed(&mut self.read_faults));
        }
        Ok(copy_from(text, at, buf))
    }

    fn create(&mut self, name: &str) -> Result<(), Failed>
        ensures ok { OnOk result (Creates name.now (files self.old) (files self.new)) }
        ensures err { OnErr result (files self.new ≡ files self.old) }
        ensures cause { HasCause self.old.write_faults self.new.write_faults result }
        ensures reads { self.new.read_faults ≡ self.old.read_faults }
        ensures listed { IsTrue (next_fails self.old) → IsErr result }
        ensures numbered { IsNextCall self.old self.new }
    {
        if next_fails(&self.fail, &mut self.calls) {
            return Err(failed(&mut self.write_faults));
        }
        match set_text(&mut self.files, self.alloc, name, Vec::new(self.alloc)) {
            Ok(()) => Ok(()),
            Err(_) => Err(failed(&mut self.write_faults)),
        }
    }

    fn append(&mut self, name: &str, bytes: &[u8]) -> Result<usize, Failed>
        requires { IsSome (map.get (files self.old) name.now) }
        ensures taken { TakesPiece (Grows name.now) (Some (files self.old)) (Some (files self.new)) bytes.now result }
        ensures cause { HasCause self.old.write_faults self.new.write_faults result }
        ensures reads { self.new.read_faults ≡ self.old.read_faults }
        ensures most { IfOk result (λ n. n ≡ min (length bytes.now) (most self.old)) }
        ensures listed { IsTrue (next_fails self.old) → IsErr result }
        ensures numbered { IsNextCall self.old self.new }
    {
        if next_fails(&self.fail, &mut self.calls) {
            return Err(failed(&mut self.write_faults));
        }
        let count = bytes.len().min(self.take);
        match grow_text(&mut self.files, name, &bytes[..count]) {
            Ok(()) => Ok(count),
            Err(_) => Err(failed(&mut self.write_faults)),
        }
    }
}

/// An output in memory. Calls are numbered from 0.
#[derive(Drop)]
pub struct MemSink {
    bytes: Vec<u8>,
    fail: List<u64>,
    calls: u64,
    faults: u64,
}

impl MemSink {
    ghost use Rattle.outside_doubles.specs.MemSink.{sink_bytes, number, listed};

    /// Nothing written yet. The calls that `fail` lists fail.
    pub fn new(alloc: Global, fail: List<u64>) -> MemSink
        ensures empty { sink_bytes result ≡ [] }
        ensures number { number result ≡ 0 }
        ensures listed { listed result ≡ fail }
        ensures faults { result.faults ≡ 0 }
    {
        MemSink {
            bytes: Vec::new(alloc),
            fail,
            calls: 0,
            faults: 0,
        }
    }

    /// What was written.
    pub fn bytes(&self) -> &[u8]
        ensures { result.now ≡ sink_bytes self.now }
    {
        &self.bytes
    }
}

impl Sink for MemSink {
    ghost use Rattle.outside_doubles.specs.MemSink.{sink_bytes, next_fails, IsNextCall};

    ghost held = { λ s. Some s.bytes.items };

    ghost faults = { λ s. s.faults };

    fn write(&mut self, bytes: &[u8]) -> Result<usize, Failed>
        ensures taken { TakesPiece Gains (Some (sink_bytes self.old)) (Some (sink_bytes self.new)) bytes.now result }
        ensures cause { HasCause self.old.faults self.new.faults result }
        ensures most { IfOk result (λ n. n ≡ length bytes.now) }
        ensures listed { IsTrue (next_fails self.old) → IsErr result }
        ensures numbered { IsNextCall self.old self.new }
    {
        if next_fails(&self.fail, &mut self.calls) {
            return Err(failed(&mut self.faults));
        }
        match self.bytes.extend_from_slice(bytes) {
            Ok(()) => Ok(bytes.len()),
            Err(_) => Err(failed(&mut self.faults)),
        }
    }
}
