//! The words that a read command writes to RAM.
ghost use Rattle.std.specs.Prelude.{◌≡◌, ◌+◌, ◌-◌, ◌≤◌, length, take, drop, slice_get, List, [], IsSome, ◌↔◌};
ghost use Rattle.std.specs.Int.{w32, from_le_bytes};
ghost use Rattle.run_events.specs.declared.supply.DmaWord.{DmaWord};
ghost use Rattle.rv_devices.specs.Sends.{Sends, unsent};

use run_events::DmaWord;

/// How many bytes a sector has.
pub const SECTOR_BYTES: usize = 512;

/// A sector's bytes, of which the first `sent` were handed out; the next word goes to `address`, with this mark.
#[derive(Clone, Copy)]
pub struct Transfer {
    pub bytes: [u8; 512],
    pub sent: usize,
    pub address: u32,
    pub mark: u8,
}

impl Transfer {
    /// A transfer of no word.
    pub fn none() -> Transfer
        ensures sends { Sends [] result }
        ensures left { unsent result ≡ 0 }
    {
        Transfer {
            bytes: [0; 512],
            sent: SECTOR_BYTES,
            address: 0,
            mark: 0,
        }
    }

    /// Hands out the next word, if one is left.
    pub fn next(&mut self) -> Option<DmaWord>
        ensures next { (words : List DmaWord) → Sends words self.old → result ≡ slice_get words 0 }
        ensures sends { (words : List DmaWord) → Sends words self.old
            → Sends (drop 1 words) self.new }
        ensures left { unsent self.new ≡ unsent self.old - 1 }
        ensures some { IsSome result ↔ (1 ≤ unsent self.old) }
    {
        let at = self.sent;
        if at > SECTOR_BYTES - 4 {
            return None;
        }
        let word = word_at(&self.bytes, at);
        let next = DmaWord {
            address: self.address,
            word,
            mark: self.mark,
        };
        self.sent = at + 4;
        self.address = self.address.wrapping_add(4);
        Some(next)
    }
}

// The word at a place, little-endian.
fn word_at(bytes: &[u8], at: usize) -> u32
    requires { at + 4 ≤ length bytes.now }
    ensures { result ≡ from_le_bytes w32 (take 4 (drop at bytes.now)) }
{
    u32::from_le_bytes([bytes[at], bytes[at + 1], bytes[at + 2], bytes[at + 3]])
}
