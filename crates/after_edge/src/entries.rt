//! The entries of files in memory, found by their names.
ghost use Rattle.std.specs.Prelude.{◌≡◌, ◌++◌, [], ◌∷◌, is_some, not, option_copied, length, IsOk, OnOk, OnErr};
ghost use Rattle.std.specs.List.{position};
ghost use Rattle.after_edge.specs.MemoryFiles.{is_named, entry_of, file_of, changed, changed_or_added, with_room, with_no_file, with_bytes, with_no_bytes, with_piece, has_no_place, HasRoom};

use crate::entry::Entry;
use memory_map::NoMemory;
use std::alloc::Global;

// The place of the first entry of this name.
fn place(entries: &[Entry], name: &str) -> Option<usize>
    ensures { result ≡ position (is_named name.now) entries.now }
{
    entries.iter().position(|entry| entry.is_named(name))
}

// Adds an entry; where there is no memory for it, all is as before.
fn add(entries: &mut Vec<Entry>, entry: Entry) -> Result<(), NoMemory>
    ensures ok { OnOk result (entries.new.items ≡ entries.old.items ++ entry ∷ []) }
    ensures err { OnErr result (entries.new.items ≡ entries.old.items) }
{
    match entries.push(entry) {
        Ok(()) => Ok(()),
        Err(failed) => Err(failed.into()),
    }
}

// Reserves room for this many bytes at least. A name that is new has no file then.
pub(crate) fn room_at(
    alloc: Global,
    entries: &mut Vec<Entry>,
    name: &str,
    bytes: usize,
) -> Result<(), NoMemory>
    ensures ok { OnOk result (entries.new.items
        ≡ changed_or_added (with_room bytes) (with_no_file name.now bytes) name.now
        entries.old.items) }
    ensures within { HasRoom (entry_of entries.old.items name.now) bytes → IsOk result }
    ensures err { OnErr result (entries.new.items ≡ entries.old.items) }
{
    match place(entries, name) {
        Some(index) => {
            let entry = &mut entries[index];
            entry.reserve(bytes)
        }
        None => add(entries, Entry::new(alloc, name, bytes)?),
    }
}

// Makes the file of this name with these bytes, and reserves room for them.
pub(crate) fn set_at(
    alloc: Global,
    entries: &mut Vec<Entry>,
    name: &str,
    bytes: &[u8],
) -> Result<(), NoMemory>
    ensures ok { OnOk result (entries.new.items
        ≡ changed_or_added (with_bytes bytes.now)
        (with_bytes bytes.now (with_no_file name.now 0)) name.now
        entries.old.items) }
    ensures within { HasRoom (entry_of entries.old.items name.now) (length bytes.now)
        → IsOk result }
    ensures err { OnErr result (entries.new.items ≡ entries.old.items) }
{
    match place(entries, name) {
        Some(index) => {
            let entry = &mut entries[index];
            entry.fill(bytes)
        }
        None => {
            let mut entry = Entry::new(alloc, name, 0)?;
            entry.fill(bytes)?;
            add(entries, entry)
        }
    }
}

// The file of this name.
pub(crate) fn file_at<'a>(entries: &'a [Entry], name: &str) -> Option<&'a [u8]>
    ensures { option_copied result ≡ file_of entries.now name.now }
{
    match place(entries, name) {
        Some(index) => entries[index].file(),
        None => None,
    }
}

// Makes the file of this name empty, and answers whether the name has room.
pub(crate) fn begin_at(entries: &mut Vec<Entry>, name: &str) -> bool
    ensures after { entries.new.items ≡ changed with_no_bytes name.now entries.old.items }
    ensures found { result ≡ is_some (entry_of entries.old.items name.now) }
{
    match place(entries, name) {
        Some(index) => {
            let entry = &mut entries[index];
            entry.begin();
            true
        }
        None => false,
    }
}

// Adds the part of the piece that fits, and answers whether that is all of it.
pub(crate) fn append_at(entries: &mut Vec<Entry>, name: &str, piece: &[u8]) -> bool
    ensures after { entries.new.items ≡ changed (with_piece piece.now) name.now entries.old.items }
    ensures whole { result ≡ not (has_no_place piece.now (entry_of entries.old.items name.now)) }
{
    match place(entries, name) {
        Some(index) => {
            let entry = &mut entries[index];
            entry.append(piece)
        }
        None => false,
    }
}
