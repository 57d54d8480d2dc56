//! Where RAM and the device registers of the board lie, where instructions begin, the halves of 64 bits, how large a
//! machine and how long its run may be, the name for no memory, and what may cross threads.
#![tactic(auto)]

mod device;
mod halves;
mod threads;

pub use device::is_device;
pub use halves::{high_half, low_half, with_high, with_low};
use std::alloc::AllocError;
pub use threads::{CrossesThreads, SharedByThreads};

/// No memory was found: the one answer that no clause ties to a cause.
pub type NoMemory = AllocError;

/// An instruction begins at a multiple of this many bytes. (Unprivileged manual, 1.5.)
pub const GRAIN: u32 = 4;

/// The most steps of a run; the largest number of a record.
pub const MOST_STEPS: u32 = 1_000_000_000;

/// The smallest size that RAM may have, in KiB.
pub const LEAST_RAM_KIB: u32 = 64;

/// The largest size that RAM may have, in KiB.
pub const MOST_RAM_KIB: u32 = 16_384;

/// The most bytes that RAM may have.
pub const MOST_RAM_BYTES: usize = 16_777_216;

/// The most bytes that a disk may have.
pub const MOST_DISK_BYTES: usize = 16_777_216;

/// The address of RAM's first byte.
pub const RAM_START: u32 = 0x8000_0000;

/// The lower half of the time at which the timer's interrupt line rises.
pub const MTIMECMP_LOW: u32 = 0x0200_4000;

/// The upper half of that time.
pub const MTIMECMP_HIGH: u32 = 0x0200_4004;

/// The lower half of the timer.
pub const MTIME_LOW: u32 = 0x0200_bff8;

/// The upper half of the timer.
pub const MTIME_HIGH: u32 = 0x0200_bffc;

/// The serial line's data register: a load takes the next byte that arrived, a store sends its low byte.
pub const SERIAL_DATA: u32 = 0x1000_0000;

/// Whether a byte waits on the serial line, and that one may be sent.
pub const SERIAL_STATUS: u32 = 0x1000_0004;

/// Whether a waiting byte raises the external interrupt line.
pub const SERIAL_CTRL: u32 = 0x1000_0008;

/// The sector of the disk's next command.
pub const DISK_SECTOR: u32 = 0x1000_1000;

/// The address in RAM of the next command: what is read goes there, what is written comes from there.
pub const DISK_ADDR: u32 = 0x1000_1004;

/// The command itself: a store starts it.
pub const DISK_CMD: u32 = 0x1000_1008;

/// What the disk is about: idle, busy, done or refused.
pub const DISK_STATUS: u32 = 0x1000_100c;

/// Whether a command that is done or refused raises the external interrupt line.
pub const DISK_CTRL: u32 = 0x1000_1010;

/// The number of the disk's sectors.
pub const DISK_COUNT: u32 = 0x1000_1014;

/// The power register: a store ends the run after its step, and its low byte is the guest's status.
pub const POWER: u32 = 0x1010_0000;
