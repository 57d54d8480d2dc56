//! A name of files in memory, its file and its room.
ghost use Rattle.std.specs.Prelude.{◌≡◌, ◌≤◌, ◌<◌, ◌-◌, length, not, vec_len, vec_capacity, if◌then◌else◌, Some, None, option_copied, IsOk, IfOk, OnOk, OnErr};
ghost use Rattle.std.specs.Str.{bytes_eq};
ghost use Rattle.std.specs.String.{string_bytes};
ghost use Rattle.after_edge.specs.MemoryFiles.{Kept, with_no_file, with_room, with_no_bytes, with_piece, passes_room, with_bytes};

use crate::reserved::append_reserved;
use memory_map::NoMemory;
use std::alloc::Global;
use std::marker::Model;

// A name that has room, and its file if there is one.
#[derive(Drop)]
pub(crate) struct Entry {
    name: String,
    // whether there is a file, and its bytes
    present: bool,
    bytes: Vec<u8>,
    // how many bytes the file may have
    room: usize,
}

impl Model for Entry {
    ghost Value = { Kept };

    ghost view = { λ e. record {
      name = string_bytes e.name;
      file = (if e.present then Some e.bytes.items else None);
      room = e.room;
    } };

    ghost invariant = { λ e. (vec_len e.bytes ≤ e.room) × (e.room ≤ vec_capacity e.bytes) };
}

impl Entry {
    // A name with this room and no file.
    pub(crate) fn new(alloc: Global, name: &str, room: usize) -> Result<Entry, NoMemory>
        ensures { IfOk result (λ entry. entry ≡ with_no_file name.now room) }
    {
        Ok(Entry {
            name: String::from_str(alloc, name)?,
            present: false,
            bytes: Vec::with_capacity(alloc, room)?,
            room,
        })
    }

    pub(crate) fn is_named(&self, name: &str) -> bool
        ensures { result ≡ bytes_eq self.now.name name.now }
    {
        self.name.as_str() == name
    }

    pub(crate) fn file(&self) -> Option<&[u8]>
        ensures { option_copied result ≡ self.now.file }
    {
        if self.present {
            Some(&self.bytes)
        } else {
            None
        }
    }

    // Reserves room for this many bytes at least. Where there is no memory, all is as before.
    pub(crate) fn reserve(&mut self, room: usize) -> Result<(), NoMemory>
        ensures ok { OnOk result (self.new ≡ with_room room self.old) }
        ensures within { room ≤ self.old.room → IsOk result }
        ensures err { OnErr result (self.new ≡ self.old) }
    {
        if room <= self.room {
            return Ok(());
        }
        self.bytes.reserve(room - self.bytes.len())?;
        self.room = room;
        Ok(())
    }

    // Makes the file empty, and makes one where there is none.
    pub(crate) fn begin(&mut self)
        ensures { self.new ≡ with_no_bytes self.old }
    {
        self.bytes.clear();
        self.present = true;
    }

    // Adds the part of the piece that fits, and answers whether that is all of it.
    pub(crate) fn append(&mut self, piece: &[u8]) -> bool
        ensures after { self.new ≡ with_piece piece.now self.old }
        ensures whole { result ≡ not (passes_room piece.now self.old) }
    {
        if !self.present {
            self.begin();
        }
        let room = self.room - self.bytes.len();
        append_reserved(&mut self.bytes, &piece[..room.min(piece.len())]);
        piece.len() <= room
    }

    // Makes the file with these bytes, and reserves room for them. Where there is no memory, all is as before.
    pub(crate) fn fill(&mut self, bytes: &[u8]) -> Result<(), NoMemory>
        ensures ok { OnOk result (self.new ≡ with_bytes bytes.now self.old) }
        ensures within { length bytes.now ≤ self.old.room → IsOk result }
        ensures err { OnErr result (self.new ≡ self.old) }
    {
        self.reserve(bytes.len())?;
        self.begin();
        append_reserved(&mut self.bytes, bytes);
        Ok(())
    }
}
