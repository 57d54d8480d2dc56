//! Which addresses are device registers.
ghost use Rattle.std.specs.Prelude.{◌≡◌};
ghost use Rattle.memory_map.specs.Device as board;

use crate::{
    DISK_ADDR, DISK_CMD, DISK_COUNT, DISK_CTRL, DISK_SECTOR, DISK_STATUS, MTIME_HIGH, MTIME_LOW,
    MTIMECMP_HIGH, MTIMECMP_LOW, POWER, SERIAL_CTRL, SERIAL_DATA, SERIAL_STATUS,
};

/// Whether a device register begins at this byte address. A device is accessed at no other address.
#[tactic(auto, unfolding(crate::specs::Device::is_device))]
#[inline(always)]
pub fn is_device(address: u32) -> bool
    ensures { result ≡ board.is_device address }
{
    matches!(
        address,
        MTIMECMP_LOW
            | MTIMECMP_HIGH
            | MTIME_LOW
            | MTIME_HIGH
            | SERIAL_DATA
            | SERIAL_STATUS
            | SERIAL_CTRL
            | DISK_SECTOR
            | DISK_ADDR
            | DISK_CMD
            | DISK_STATUS
            | DISK_CTRL
            | DISK_COUNT
            | POWER
    )
}
