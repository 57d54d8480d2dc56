//! The shadow of RAM.
ghost use Rattle.std.specs.Prelude.{◌≡◌, ℕ, ◌+◌, ◌-◌, ◌*◌, ◌^◌, ◌<◌, ◌≤◌, true, false, min, List, [], ◌∷◌, ◌++◌, length, take, drop, replicate, slice_index, IfOk, IfSome, IfNone};
ghost use Rattle.memory_map.specs.declared.TheConstants.{LEAST_RAM_KIB, MOST_RAM_BYTES, MOST_RAM_KIB, RAM_START};
ghost use Rattle.memory_map.specs.Ram.{InRam};
ghost use Rattle.shadow_state.specs.Shade.{Shade, Paint, shade, has_byte, painted_from, painted, last_paint, IsPainted, IsLeast, NoneBetween};
ghost use Rattle.shadow_state.specs.Places.{IsFirstPlace, NoPlace};

use memory_map::{NoMemory, RAM_START, SharedByThreads};
use std::alloc::Global;
use std::marker::Model;

/// One byte of state for each byte of RAM.
#[derive(Drop)]
pub struct Shadow {
    bytes: Vec<u8>,
}

impl SharedByThreads for Shadow {}

impl Model for Shadow {
    ghost use Rattle.std.specs.Prelude.{◌≤◌, length};
    ghost use Rattle.memory_map.specs.declared.TheConstants.{MOST_RAM_BYTES};
    ghost use Rattle.shadow_state.specs.Shade.{Shade};

    ghost Value = { Shade };

    ghost view = { λ s. record { bytes = s.bytes.items } };

    ghost invariant = { λ s. length s.bytes.items ≤ MOST_RAM_BYTES };
}

impl Shadow {
    /// The shadow of a RAM of `ram_kib` KiB, all 0. It is the only call that takes memory.
    pub fn new(alloc: Global, ram_kib: u32) -> Result<Shadow, NoMemory>
        requires least { LEAST_RAM_KIB ≤ ram_kib }
        requires most { ram_kib ≤ MOST_RAM_KIB }
        ensures size { IfOk result (λ s. length s.bytes ≡ 1024 * ram_kib) }
        ensures clear { IfOk result (λ s. IsPainted s []) }
    {
        Ok(Shadow {
            bytes: vec![in alloc; 0u8; 1024 * ram_kib as usize]?,
        })
    }

    /// Gives this value to the bytes of RAM in `[from, to)`. The others stay, and addresses outside RAM are passed over.
    pub fn paint(&mut self, from: u64, to: u64, value: u8)
        ensures painted { self.new ≡ painted self.old from to value }
        // each byte has the value of the last paint that covers it
        ensures last { (paints : List Paint) → IsPainted self.old paints →
            IsPainted self.new (record { from = from; to = to; value = value } ∷ paints) }
    {
        paint_bytes(&mut self.bytes, from, to, value);
    }

    /// The value at an address, which is 0 outside RAM.
    pub fn get(&self, address: u32) -> u8
        ensures value { result ≡ shade self.now address }
        ensures last { (paints : List Paint) → IsPainted self.now paints →
            has_byte self.now address ≡ true → result ≡ last_paint paints address }
    {
        if address < RAM_START {
            return 0;
        }
        match self.bytes.get((address - RAM_START) as usize) {
            Some(byte) => *byte,
            None => 0,
        }
    }

    /// The least address of RAM in `[from, to)` whose value has a bit of `set`; none exactly where there is none.
    pub fn first_of(&self, from: u64, to: u64, set: u8) -> Option<u32>
        ensures least { IfSome result (λ address. IsLeast self.now from to set address) }
        ensures none { IfNone result (NoneBetween self.now set from to) }
        ensures bytes { (address : ℕ) → shade self.now address < 2 ^ 8 }
    {
        let start = place_of(from, self.bytes.len());
        let end = place_of(to, self.bytes.len());
        match first_place(&self.bytes, start, end, set) {
            Some(place) => Some(RAM_START + place as u32),
            None => None,
        }
    }

    /// Whether the four bytes from an address on stand in RAM and none of them has a bit of `set`. It takes one compare of
    /// the place and one of the values, for those who ask at each event.
    #[inline(always)]
    pub fn has_four_clear(&self, address: u32, set: u8) -> bool
        ensures inside { result ≡ true → InRam (length self.now.bytes) address 4 }
        ensures clear { result ≡ true → NoneBetween self.now set address (address + 4) }
        ensures bytes { result ≡ true → (address : ℕ) → shade self.now address < 2 ^ 8 }
        ensures marked { result ≡ false
            → InRam (length self.now.bytes) address 4
            → NoneBetween self.now set address (address + 4)
            → ⊥ }
    {
        // no RAM is so long that an address before it, less RAM_START, falls into it
        let place = address.wrapping_sub(RAM_START) as usize;
        place + 4 <= self.bytes.len() && lacks(four_from(&self.bytes, place), set)
    }
}

// The four bytes from a place on.
#[tactic(auto, using(crate::proofs::FourLaws::four_fit))]
#[inline(always)]
fn four_from(bytes: &[u8], place: usize) -> [u8; 4]
    requires { place + 4 ≤ length bytes.now }
    ensures four { result ≡ take 4 (drop place bytes.now) }
    ensures bytes { (place : ℕ) → slice_index bytes.now place < 2 ^ 8 }
    ensures fit { (i : ℕ) → i < 4 → slice_index result i < 2 ^ 8 }
{
    let mut four = [0; 4];
    four.copy_from_slice(&bytes[place..place + 4]);
    four
}

// Whether none of the bytes has a bit of `set`: all four are looked at as one word.
#[tactic(auto, using(crate::proofs::WordLaws::lacks_clear))]
#[inline(always)]
fn lacks(four: [u8; 4], set: u8) -> bool
    requires { (i : ℕ) → i < 4 → slice_index four i < 2 ^ 8 }
    ensures clear { result ≡ true → NoPlace four set 0 4 }
    ensures marked { result ≡ false → NoPlace four set 0 4 → ⊥ }
{
    u32::from_le_bytes(four) & u32::from_le_bytes([set; 4]) == 0
}

// The place among `length` bytes of RAM of the first one at this address or after it, and `length` where there is none.
fn place_of(address: u64, length: usize) -> usize
    requires { length ≤ MOST_RAM_BYTES }
    ensures { result ≡ min (address - RAM_START) length }
{
    let place = address.saturating_sub(u64::from(RAM_START));
    place.min(length as u64) as usize
}

// Gives this value to the bytes of RAM in `[from, to)`.
#[tactic(auto, using(crate::proofs::FillLaws::painted_from_fill))]
fn paint_bytes(bytes: &mut [u8], from: u64, to: u64, value: u8)
    requires { length bytes.old ≤ MOST_RAM_BYTES }
    ensures { bytes.new ≡ painted_from RAM_START from to value bytes.old }
{
    let start = place_of(from, bytes.len());
    let end = place_of(to, bytes.len()).max(start);
    fill(bytes, start, end, value);
}

// Gives this value to the bytes at the places `[start, end)`.
fn fill(bytes: &mut [u8], start: usize, end: usize, value: u8)
    requires ordered { start ≤ end }
    requires within { end ≤ length bytes.old }
    ensures { bytes.new ≡ take start bytes.old
        ++ (replicate (end - start) value ++ drop end bytes.old) }
{
    bytes[start..end].fill(value);
}

// The first of the places `[start, end)` whose byte has a bit of `set`.
fn first_place(bytes: &[u8], start: usize, end: usize, set: u8) -> Option<usize>
    requires { end ≤ length bytes.now }
    ensures first { IfSome result (λ place. IsFirstPlace bytes.now start end set place) }
    ensures none { IfNone result (NoPlace bytes.now set start end) }
    ensures bytes { (place : ℕ) → slice_index bytes.now place < 2 ^ 8 }
{
    for place in start..end {
        if bytes[place] & set != 0 {
            return Some(place);
        }
    }
    None
}
