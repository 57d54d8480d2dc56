//! RAM, byte by byte.
ghost use Rattle.memory_map.specs.declared.TheConstants.{LEAST_RAM_KIB, MOST_RAM_BYTES, MOST_RAM_KIB};
ghost use Rattle.std.specs.Prelude.{◌≡◌, ℕ, ◌+◌, ◌-◌, ◌*◌, ◌<◌, ◌≤◌, List, length, take, drop, replicate, IfOk};
ghost use Rattle.std.specs.Int.{w16, w32, from_le_bytes};
ghost use Rattle.memory_map.specs.Ram.{InRam, IsWidth, in_ram};
ghost use Rattle.rv_memory.specs.Ram.{loaded, stored, filled};

use memory_map::{NoMemory, RAM_START, SharedByThreads};
use std::alloc::Global;
use std::marker::Model;

/// The bytes of RAM. Contracts see them as a list.
#[derive(Drop)]
pub struct Ram {
    bytes: Vec<u8>,
}

impl SharedByThreads for Ram {}

impl Model for Ram {
    ghost Value = { List ℕ };

    ghost view = { λ r. r.bytes.items };

    ghost invariant = { λ r. length r.bytes.items ≤ MOST_RAM_BYTES };
}

// The two bytes from a place on, little-endian.
#[inline(always)]
fn halfword_at(bytes: &[u8], at: usize) -> u16
    requires { at + 2 ≤ length bytes.now }
    ensures { result ≡ from_le_bytes w16 (take 2 (drop at bytes.now)) }
{
    let mut halfword = [0; 2];
    halfword.copy_from_slice(&bytes[at..at + 2]);
    u16::from_le_bytes(halfword)
}

// The four bytes from a place on, little-endian.
#[inline(always)]
fn word_at(bytes: &[u8], at: usize) -> u32
    requires { at + 4 ≤ length bytes.now }
    ensures { result ≡ from_le_bytes w32 (take 4 (drop at bytes.now)) }
{
    let mut word = [0; 4];
    word.copy_from_slice(&bytes[at..at + 4]);
    u32::from_le_bytes(word)
}

impl Ram {
    /// A RAM of this many KiB, with all bytes 0. It is the only call that takes memory.
    pub fn new(alloc: Global, kib: u32) -> Result<Ram, NoMemory>
        requires least { LEAST_RAM_KIB ≤ kib }
        requires most { kib ≤ MOST_RAM_KIB }
        ensures { IfOk result (λ ram. ram ≡ replicate (1024 * kib) 0) }
    {
        Ok(Ram {
            bytes: vec![in alloc; 0u8; 1024 * kib as usize]?,
        })
    }

    /// Whether `[address, address + width)` stands in RAM, as whole numbers.
    #[inline(always)]
    pub fn holds(&self, address: u32, width: u32) -> bool
        ensures { result ≡ in_ram (length self.now) address width }
    {
        // no RAM is so long that an address before it, less RAM_START, falls into it
        address.wrapping_sub(RAM_START) as usize + width as usize <= self.bytes.len()
    }

    /// The value of the bytes at an address, little-endian and extended by zero. (Unprivileged manual, 1.4 and 2.6.)
    #[inline(always)]
    pub fn load(&self, address: u32, width: u32) -> u32
        requires width { IsWidth width }
        requires held { InRam (length self.now) address width }
        ensures { result ≡ loaded self.now address width }
    {
        let bytes = self.bytes.as_slice();
        let at = (address - RAM_START) as usize;
        match width {
            1 => u32::from(bytes[at]),
            2 => u32::from(halfword_at(bytes, at)),
            _ => word_at(bytes, at),
        }
    }

    /// Stores the low bytes of a value at an address, little-endian; all other bytes stay. (Unprivileged manual, 1.4 and 2.6.)
    #[inline(always)]
    pub fn store(&mut self, address: u32, width: u32, value: u32)
        requires width { IsWidth width }
        requires held { InRam (length self.old) address width }
        ensures value { self.new ≡ stored self.old address width value }
        ensures length { length self.new ≡ length self.old }
    {
        let at = (address - RAM_START) as usize;
        let low = value.to_le_bytes();
        let bytes = self.bytes.as_mut_slice();
        match width {
            1 => bytes[at..at + 1].copy_from_slice(&low[..1]),
            2 => bytes[at..at + 2].copy_from_slice(&low[..2]),
            _ => bytes[at..at + 4].copy_from_slice(&low),
        }
    }

    /// The `count` bytes from an address on.
    pub fn bytes(&self, address: u32, count: u32) -> &[u8]
        requires { InRam (length self.now) address count }
        ensures { result.now ≡ take count (drop (address - RAM_START) self.now) }
    {
        let at = (address - RAM_START) as usize;
        &self.bytes[at..at + count as usize]
    }

    /// Writes these bytes from an address on; all other bytes stay.
    pub fn fill(&mut self, address: u32, bytes: &[u8])
        requires { InRam (length self.old) address (length bytes.now) }
        ensures value { self.new ≡ filled self.old address bytes.now }
        ensures length { length self.new ≡ length self.old }
    {
        let at = (address - RAM_START) as usize;
        self.bytes[at..at + bytes.len()].copy_from_slice(bytes);
    }
}
