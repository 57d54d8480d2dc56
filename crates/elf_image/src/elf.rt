//! Files with a header: ELF32, little-endian.
ghost use Rattle.std.specs.Prelude.{◌≡◌, ◌+◌, ◌*◌, ◌≤◌, [], length, map, take, drop, IfOk, option_to_list};
ghost use Rattle.format_model.specs.ImageFile.{field_at, is_elf, kind_in, table_in, load_at, loads_at, with_front, share, first_shared, overlap_after, image_at, elf_in};
ghost use Rattle.memory_map.specs.Ram.{in_ram};
ghost use Rattle.elf_image.specs.Reads.{Gives, HasTable, IfNoMemory};

use crate::fault::ImageFault;
use crate::image::{Image, Segment};
use memory_map::{NoMemory, RAM_START};
use std::alloc::Global;
use std::marker::Model;

// The most program headers, and the size of each.
const MOST_HEADERS: u16 = 64;

const HEADER_SIZE: u16 = 32;

// The size of the file's header.
const FILE_HEADER_SIZE: usize = 52;

// The type of a program header that is loaded.
const LOADED: u32 = 1;

// Whether a file begins as one with a header does.
pub(crate) fn is_elf(file: &[u8]) -> bool
    ensures { result ≡ is_elf file.now }
{
    file.len() >= 4 && file[0] == 0x7f && file[1] == b'E' && file[2] == b'L' && file[3] == b'F'
}

fn byte_at(file: &[u8], at: usize) -> u8
    requires { at + 1 ≤ length file.now }
    ensures { result ≡ field_at file.now at 1 }
{
    file[at]
}

fn half_at(file: &[u8], at: usize) -> u16
    requires { at + 2 ≤ length file.now }
    ensures { result ≡ field_at file.now at 2 }
{
    u16::from_le_bytes([file[at], file[at + 1]])
}

fn word_at(file: &[u8], at: usize) -> u32
    requires { at + 4 ≤ length file.now }
    ensures { result ≡ field_at file.now at 4 }
{
    u32::from_le_bytes([file[at], file[at + 1], file[at + 2], file[at + 3]])
}

// Whether a range of addresses stands in a RAM of this many bytes.
fn in_ram(size: u32, address: u32, width: u32) -> bool
    ensures { result ≡ in_ram size address width }
{
    RAM_START <= address
        && u64::from(address) + u64::from(width) <= u64::from(RAM_START) + u64::from(size)
}

// The fields that have one value alone.
#[tactic(auto, unfolding(format_model::specs::ImageFile::kind_in))]
fn kind_in(file: &[u8]) -> Result<(), ImageFault>
    requires { 52 ≤ length file.now }
    ensures kind { Gives (λ k. k) result (kind_in file.now) }
    ensures memory { IfNoMemory result ⊥ }
{
    if byte_at(file, 4) != 1 {
        return Err(ImageFault::NotThis { field: 4 });
    }
    if byte_at(file, 5) != 1 {
        return Err(ImageFault::NotThis { field: 5 });
    }
    if byte_at(file, 6) != 1 {
        return Err(ImageFault::NotThis { field: 6 });
    }
    if half_at(file, 16) != 2 {
        return Err(ImageFault::NotThis { field: 16 });
    }
    if half_at(file, 18) != 243 {
        return Err(ImageFault::NotThis { field: 18 });
    }
    Ok(())
}

// The table of program headers: where it starts, and how many there are.
#[derive(Clone, Copy)]
struct Table {
    start: u32,
    count: u32,
}

#[tactic(auto, unfolding(format_model::specs::ImageFile::table_in))]
fn table_in(file: &[u8]) -> Result<Table, ImageFault>
    requires { 52 ≤ length file.now }
    ensures table { Gives (λ t. record { start = t.start; count = t.count }) result
        (table_in file.now) }
    ensures within { IfOk result (λ t. t.start + 32 * t.count ≤ length file.now) }
    ensures memory { IfNoMemory result ⊥ }
{
    let count = half_at(file, 44);
    if count == 0 {
        return Err(ImageFault::NoSegment);
    }
    if count > MOST_HEADERS || half_at(file, 42) != HEADER_SIZE {
        return Err(ImageFault::BadTable);
    }
    let start = word_at(file, 28);
    let need = u64::from(start) + 32 * u64::from(count);
    if (file.len() as u64) < need {
        return Err(ImageFault::Short { need });
    }
    Ok(Table {
        start,
        count: u32::from(count),
    })
}

// A segment that is loaded, and the number of its header.
#[derive(Drop)]
struct Load<'a> {
    index: u32,
    address: u32,
    bytes: &'a [u8],
    size: u32,
    executable: bool,
}

impl<'a> Model for Load<'a> {
    ghost use Rattle.format_model.specs.ImageFile.{Load as Numbered};

    ghost Value = { Numbered };

    ghost view = { λ l. record {
      index = l.index;
      segment = record {
        address = l.address;
        bytes = l.bytes.now;
        size = l.size;
        executable = l.executable;
      };
    } };
}

// So many bytes of a file.
fn bytes_in(file: &[u8], from: usize, count: usize) -> &[u8]
    requires { from + count ≤ length file.now }
    ensures { result.now ≡ take count (drop from file.now) }
{
    let (_, rest) = file.split_at(from);
    let (bytes, _) = rest.split_at(count);
    bytes
}

// What a header at a place loads.
#[tactic(auto, unfolding(format_model::specs::ImageFile::load_at))]
fn load_at(file: &[u8], size: u32, at: usize, index: u32) -> Result<Option<Load<'_>>, ImageFault>
    requires { at + 32 ≤ length file.now }
    ensures { Gives (λ o. option_to_list o) result (load_at file.now size at index) }
{
    let wanted = word_at(file, at + 20);
    if word_at(file, at) != LOADED || wanted == 0 {
        return Ok(None);
    }
    let given = word_at(file, at + 16);
    if wanted < given {
        return Err(ImageFault::SegmentShape { index });
    }
    let offset = word_at(file, at + 4);
    let need = u64::from(offset) + u64::from(given);
    if (file.len() as u64) < need {
        return Err(ImageFault::Short { need });
    }
    let address = word_at(file, at + 12);
    if !in_ram(size, address, wanted) {
        return Err(ImageFault::SegmentOutside { index });
    }
    let bytes = bytes_in(file, offset as usize, given as usize);
    let executable = word_at(file, at + 24) % 2 == 1;
    Ok(Some(Load {
        index,
        address,
        bytes,
        size: wanted,
        executable,
    }))
}

// Adds what a header at a place loads.
fn add_load<'a>(
    loads: &mut Vec<Load<'a>>,
    file: &'a [u8],
    size: u32,
    at: usize,
    index: u32,
) -> Result<(), ImageFault>
    requires { at + 32 ≤ length file.now }
    ensures { Gives (λ _. loads.new.items) result
        (with_front loads.old.items (load_at file.now size at index)) }
{
    match load_at(file, size, at, index) {
        Ok(None) => Ok(()),
        Ok(Some(load)) => {
            loads.push(load)?;
            Ok(())
        }
        Err(fault) => Err(fault),
    }
}

// What the headers of a table load.
fn loads_of(
    alloc: Global,
    file: &[u8],
    size: u32,
    table: Table,
) -> Result<Vec<Load<'_>>, ImageFault>
    requires { table.start + 32 * table.count ≤ length file.now }
    ensures { Gives (λ v. v.items) result (loads_at table.count file.now size table.start 0) }
{
    let mut loads = Vec::new(alloc);
    let start = table.start as usize;
    let count = table.count;
    for index in 0..count {
        add_load(&mut loads, file, size, start + 32 * index as usize, index)?;
    }
    Ok(loads)
}

// Whether two segments share an address.
fn share(one: &Load, other: &Load) -> bool
    ensures { result ≡ share one.now.segment other.now.segment }
{
    u64::from(one.address) < u64::from(other.address) + u64::from(other.size)
        && u64::from(other.address) < u64::from(one.address) + u64::from(one.size)
}

// The number of the first of these that shares an address with a segment.
fn first_shared(load: &Load, before: &[Load]) -> Option<u32>
    ensures { result ≡ first_shared load.now.segment before.now }
{
    for earlier in before {
        if share(earlier, load) {
            return Some(earlier.index);
        }
    }
    None
}

// Refuses the first segment that shares an address with one before it.
fn apart(loads: &[Load]) -> Result<(), ImageFault>
    ensures { Gives (λ a. a) result (overlap_after [] loads.now) }
{
    for (i, load) in loads.iter().enumerate() {
        match first_shared(load, &loads[..i]) {
            Some(first) => {
                return Err(ImageFault::Overlap {
                    first,
                    second: load.index,
                });
            }
            None => {}
        }
    }
    Ok(())
}

fn segments_of(alloc: Global, loads: &[Load]) -> Result<Vec<Segment>, NoMemory>
    ensures { IfOk result (λ v. v.items ≡ map (λ load. load.segment) loads.now) }
{
    let mut segments = Vec::with_capacity(alloc, loads.len())?;
    for load in loads {
        segments.push(Segment {
            address: load.address,
            bytes: Vec::from_slice(alloc, load.bytes)?,
            size: load.size,
            executable: load.executable,
        })?;
    }
    Ok(segments)
}

// The image of loads that are apart.
#[tactic(auto, unfolding(format_model::specs::ImageFile::image_at))]
fn image_at(alloc: Global, file: &[u8], size: u32, loads: &[Load]) -> Result<Image, ImageFault>
    requires { 52 ≤ length file.now }
    ensures { Gives (λ i. i) result (image_at file.now size loads.now) }
{
    if loads.is_empty() {
        return Err(ImageFault::NoSegment);
    }
    let entry = word_at(file, 24);
    if !(in_ram(size, entry, 1) && entry % 4 == 0) {
        return Err(ImageFault::EntryOutside);
    }
    let segments = segments_of(alloc, loads)?;
    Ok(Image { entry, segments })
}

// The image of a file with a header, for a RAM of so many bytes.
#[tactic(auto, unfolding(format_model::specs::ImageFile::elf_in))]
pub(crate) fn elf_in(alloc: Global, file: &[u8], size: u32) -> Result<Image, ImageFault>
    ensures exact { Gives (λ i. i) result (elf_in size file.now) }
    ensures memory { IfNoMemory result (HasTable file.now) }
{
    if file.len() < FILE_HEADER_SIZE {
        return Err(ImageFault::Short { need: 52 });
    }
    kind_in(file)?;
    let table = table_in(file)?;
    let loads = loads_of(alloc, file, size, table)?;
    apart(&loads)?;
    image_at(alloc, file, size, &loads)
}
