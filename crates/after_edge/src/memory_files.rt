//! Files in memory, with failures that are planned.
ghost use Rattle.std.specs.Prelude.{◌≡◌, ◌<◌, ◌≤◌, ◌==◌, ◌-◌, length, take, drop, min, is_err, option_copied, IsOk, IfOk, OnOk, OnErr};
ghost use Rattle.std.specs.List.{list_any};
ghost use Rattle.after_edge.specs.Fault.{Counted, Counts};
ghost use Rattle.after_edge.specs.Files.{IfTold, Reads, HasReadCause, Changes, IsBegun, MayBeBegun, IsAppended, MayBeAppended};
ghost use Rattle.after_edge.specs.MemoryFiles.{FilesState, HasRoom, no_files, entry_of, file_of, room_after, set_after, read_after, begin_fails, begin_after, append_fails, append_after, told_content, read_answer};

use crate::entries::{append_at, begin_at, file_at, room_at, set_at};
use crate::entry::Entry;
use crate::{Failed, Files, ReadFault};
use memory_map::NoMemory;
use std::alloc::Global;
use std::marker::Model;

/// Files in memory, which fail where they are told to.
///
/// A name can be written once `room` or `set` answered Ok for it. Its room is the greatest number of bytes
/// that these calls reserved for it; no other call changes it, and none of the calls of `Files` takes memory.
#[derive(Drop)]
pub struct MemoryFiles {
    alloc: Global,
    entries: Vec<Entry>,
    // the numbers of the calls that are to fail
    plan: Vec<u64>,
    // how many calls of `Files` there were, and how many of them failed
    calls: u64,
    faults: u64,
}

impl Model for MemoryFiles {
    ghost Value = { FilesState };

    ghost view = { λ s. record {
      entries = s.entries.items;
      plan = s.plan.items;
      calls = s.calls;
      faults = s.faults;
    } };
}

impl MemoryFiles {
    /// No files; it always answers Ok. The calls of `Files` with these numbers, counted from 1, are to fail.
    pub fn new(alloc: Global, fails: Vec<u64>) -> Result<MemoryFiles, NoMemory>
        ensures ok { IsOk result }
        ensures fresh { IfOk result (λ files. files ≡ no_files fails.items) }
    {
        Ok(MemoryFiles {
            alloc,
            entries: Vec::new(alloc),
            plan: fails,
            calls: 0,
            faults: 0,
        })
    }

    /// Reserves room for a file of this name, and makes none. It is Ok where the name has that room already.
    /// Where there is no memory, all is as before.
    pub fn room(&mut self, name: &str, bytes: usize) -> Result<(), NoMemory>
        ensures ok { OnOk result (self.new ≡ room_after self.old name.now bytes) }
        ensures within { HasRoom (entry_of self.old.entries name.now) bytes → IsOk result }
        ensures err { OnErr result (self.new ≡ self.old) }
    {
        room_at(self.alloc, &mut self.entries, name, bytes)
    }

    /// Makes the file with these bytes, and reserves room for them. It is Ok where the name has that room already.
    /// Where there is no memory, all is as before.
    pub fn set(&mut self, name: &str, bytes: &[u8]) -> Result<(), NoMemory>
        ensures ok { OnOk result (self.new ≡ set_after self.old name.now bytes.now) }
        ensures within { HasRoom (entry_of self.old.entries name.now) (length bytes.now)
            → IsOk result }
        ensures err { OnErr result (self.new ≡ self.old) }
    {
        set_at(self.alloc, &mut self.entries, name, bytes)
    }

    /// The bytes of the file of this name; None exactly where there is no such file.
    pub fn get(&self, name: &str) -> Option<&[u8]>
        ensures { option_copied result ≡ file_of self.now.entries name.now }
    {
        file_at(&self.entries, name)
    }
}

// Whether the call of this number is to fail.
fn is_numbered(plan: &[u64], number: u64) -> bool
    ensures { result ≡ list_any (λ each. each == number) plan.now }
{
    plan.contains(&number)
}

// Copies from byte `at` on, as much as there is and as the buffer holds.
fn read_at(bytes: &[u8], at: u64, buf: &mut [u8]) -> usize
    ensures count { result ≡ min (length buf.old) (length bytes.now - at) }
    ensures read { take result buf.new ≡ take result (drop at bytes.now) }
{
    if bytes.len() as u64 <= at {
        return 0;
    }
    let rest = &bytes[at as usize..];
    let count = rest.len().min(buf.len());
    buf[..count].copy_from_slice(&rest[..count]);
    count
}

impl Files for MemoryFiles {
    ghost content = { told_content };

    ghost faults = { λ s. s.faults };

    /// Failed exactly where this call is to fail, else Absent exactly where there is no file.
    fn read(&mut self, name: &str, at: u64, buf: &mut [u8]) -> Result<usize, ReadFault>
        requires { 0 < length buf.old }
        ensures within { IfOk result (λ count. count ≤ length buf.new) }
        ensures read { IfOk result (λ count. IfTold (told_content self.old)
            (λ files. Reads files name.now at count (take count buf.new))) }
        ensures cause { HasReadCause
            (told_content self.old) name.now self.old.faults self.new.faults result }
        ensures same { told_content self.new ≡ told_content self.old }
        ensures answer { result ≡ read_answer self.old name.now at (length buf.old) }
        ensures after { self.new ≡ read_after self.old }
    {
        self.calls = self.calls.saturating_add(1);
        if is_numbered(&self.plan, self.calls) {
            self.faults = self.faults.saturating_add(1);
            return Err(ReadFault::Failed);
        }
        match file_at(&self.entries, name) {
            Some(bytes) => Ok(read_at(bytes, at, buf)),
            None => Err(ReadFault::Absent),
        }
    }

    /// Fails exactly where this call is to fail, which changes nothing, or the name has no room.
    fn begin(&mut self, name: &str) -> Result<(), Failed>
        ensures ok { OnOk result
            (Changes (told_content self.old) (told_content self.new) name.now IsBegun) }
        ensures err { OnErr result
            (Changes (told_content self.old) (told_content self.new) name.now MayBeBegun) }
        ensures counted { Counts result self.old.faults self.new.faults }
        ensures once { Counted (is_err result) self.old.faults self.new.faults }
        ensures fails { is_err result ≡ begin_fails self.old name.now }
        ensures after { self.new ≡ begin_after self.old name.now }
    {
        self.calls = self.calls.saturating_add(1);
        if is_numbered(&self.plan, self.calls) {
            self.faults = self.faults.saturating_add(1);
            return Err(Failed);
        }
        if begin_at(&mut self.entries, name) {
            return Ok(());
        }
        self.faults = self.faults.saturating_add(1);
        Err(Failed)
    }

    /// Fails exactly where this call is to fail, which changes nothing, where the name has no room,
    /// or where the piece passes the room; then the part that fits was added.
    fn append(&mut self, name: &str, piece: &[u8]) -> Result<(), Failed>
        ensures ok { OnOk result (Changes (told_content self.old) (told_content self.new) name.now
            (IsAppended piece.now)) }
        ensures err { OnErr result (Changes (told_content self.old) (told_content self.new) name.now
            (MayBeAppended piece.now)) }
        ensures counted { Counts result self.old.faults self.new.faults }
        ensures once { Counted (is_err result) self.old.faults self.new.faults }
        ensures fails { is_err result ≡ append_fails self.old name.now piece.now }
        ensures after { self.new ≡ append_after self.old name.now piece.now }
    {
        self.calls = self.calls.saturating_add(1);
        if is_numbered(&self.plan, self.calls) {
            self.faults = self.faults.saturating_add(1);
            return Err(Failed);
        }
        if append_at(&mut self.entries, name, piece) {
            return Ok(());
        }
        self.faults = self.faults.saturating_add(1);
        Err(Failed)
    }
}
