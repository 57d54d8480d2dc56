//! The halves of 64 bits.
ghost use Rattle.std.specs.Prelude.{◌≡◌};
ghost use Rattle.memory_map.specs.Halves as halves;

/// The low 32 bits.
pub fn low_half(value: u64) -> u32
    ensures { result ≡ halves.low_half value }
{
    (value % 0x1_0000_0000) as u32
}

/// The high 32 bits.
pub fn high_half(value: u64) -> u32
    ensures { result ≡ halves.high_half value }
{
    (value / 0x1_0000_0000) as u32
}

/// The value with other low 32 bits.
pub fn with_low(value: u64, half: u32) -> u64
    ensures { result ≡ halves.with_low value half }
{
    value / 0x1_0000_0000 * 0x1_0000_0000 + u64::from(half)
}

/// The value with other high 32 bits.
pub fn with_high(value: u64, half: u32) -> u64
    ensures { result ≡ halves.with_high value half }
{
    u64::from(half) * 0x1_0000_0000 + value % 0x1_0000_0000
}
