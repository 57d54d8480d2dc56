//! The host's files.
ghost use Rattle.std.specs.Prelude.{◌≡◌, ◌<◌, ◌≤◌, ◌↔◌, ℕ, List, length, take, is_err, IfOk, OnOk, OnErr};
ghost use Rattle.std.specs.declared.io.ErrorKind.TheVariants.{NotFound};
ghost use Rattle.std.specs.IoError.{error_kind};
ghost use Rattle.after_edge.specs.declared.files.ReadFault.TheVariants.{Absent};
ghost use Rattle.after_edge.specs.Fault.{Counted, Counts};
ghost use Rattle.after_edge.specs.Files.{IfTold, untold, Reads, HasReadCause, Changes, IsBegun, MayBeBegun, IsAppended, MayBeAppended};

use crate::{Failed, Files, ReadFault};
use std::fs::{File, OpenOptions};
use std::io;
use std::io::{ErrorKind, Read, Seek, SeekFrom, Write};

/// The host's files. They tell nothing of their content.
#[derive(Drop)]
pub struct StdFiles<'a, R: std::rt::Files> {
    rt: &'a R,
    faults: u64,
}

impl<'a, R: std::rt::Files> StdFiles<'a, R> {
    ghost use Rattle.after_edge.specs.Host.{calls_failed};

    /// Files that have not failed yet.
    pub fn new(rt: &'a R) -> StdFiles<'a, R>
        ensures { calls_failed result ≡ 0 }
    {
        StdFiles { rt, faults: 0 }
    }
}

// Absent exactly where the host says that there is no such file.
fn fault_of(error: &io::Error) -> ReadFault
    ensures { (result ≡ Absent) ↔ (error_kind error.now ≡ NotFound) }
{
    match error.kind() {
        ErrorKind::NotFound => ReadFault::Absent,
        _ => ReadFault::Failed,
    }
}

// Opens the file, goes to the byte and reads once.
fn read_from<R: std::rt::Files>(
    rt: &R,
    name: &str,
    at: u64,
    buf: &mut [u8],
) -> Result<usize, ReadFault>
    ensures { IfOk result (λ count. count ≤ length buf.new) }
{
    let mut file = match File::open(rt, name) {
        Ok(file) => file,
        Err(error) => return Err(fault_of(&error)),
    };
    match file.seek(SeekFrom::Start(at)) {
        Ok(_) => {}
        Err(_) => return Err(ReadFault::Failed),
    }
    match file.read(buf) {
        Ok(count) => Ok(count),
        Err(_) => Err(ReadFault::Failed),
    }
}

// Opens the file at its end, makes it where it is absent, and writes the whole piece.
fn write_at_end<R: std::rt::Files>(rt: &R, name: &str, piece: &[u8]) -> io::Result<()> {
    let mut file = OpenOptions::new().append(true).create(true).open(rt, name)?;
    file.write_all(piece)?;
    file.flush()
}

impl<'a, R: std::rt::Files> Files for StdFiles<'a, R> {
    ghost use Rattle.after_edge.specs.Host.{calls_failed};

    ghost content = { λ s. untold };

    ghost faults = { calls_failed };

    /// Opens the file, goes to the byte and reads once. Absent is where the host says that there is no such file.
    /// The count rises exactly where this fails.
    fn read(&mut self, name: &str, at: u64, buf: &mut [u8]) -> Result<usize, ReadFault>
        ensures within { IfOk result (λ count. count ≤ length buf.new) }
        ensures read { IfOk result
            (λ count. IfTold untold (λ files. Reads files name.now at count (take count buf.new))) }
        ensures cause { HasReadCause untold name.now (calls_failed self.old) (calls_failed self.new)
            result }
        ensures once { Counted (is_err result) (calls_failed self.old) (calls_failed self.new) }
        ensures same { untold ≡ untold }
    {
        match read_from(self.rt, name, at, buf) {
            Ok(count) => Ok(count),
            Err(fault) => {
                self.faults = self.faults.saturating_add(1);
                Err(fault)
            }
        }
    }

    /// Makes the file, or cuts it to nothing. The count rises exactly where this fails.
    fn begin(&mut self, name: &str) -> Result<(), Failed>
        ensures ok { OnOk result (Changes untold untold name.now IsBegun) }
        ensures err { OnErr result (Changes untold untold name.now MayBeBegun) }
        ensures counted { Counts result (calls_failed self.old) (calls_failed self.new) }
        ensures once { Counted (is_err result) (calls_failed self.old) (calls_failed self.new) }
    {
        match File::create(self.rt, name) {
            Ok(_) => Ok(()),
            Err(_) => {
                self.faults = self.faults.saturating_add(1);
                Err(Failed)
            }
        }
    }

    /// Opens the file at its end, makes it where it is absent, and writes the whole piece.
    /// The count rises exactly where this fails.
    fn append(&mut self, name: &str, piece: &[u8]) -> Result<(), Failed>
        ensures ok { OnOk result (Changes untold untold name.now (IsAppended piece.now)) }
        ensures err { OnErr result (Changes untold untold name.now (MayBeAppended piece.now)) }
        ensures counted { Counts result (calls_failed self.old) (calls_failed self.new) }
        ensures once { Counted (is_err result) (calls_failed self.old) (calls_failed self.new) }
    {
        match write_at_end(self.rt, name, piece) {
            Ok(()) => Ok(()),
            Err(_) => {
                self.faults = self.faults.saturating_add(1);
                Err(Failed)
            }
        }
    }
}
