//! The device registers by their addresses.
ghost use Rattle.std.specs.Prelude.{◌≡◌};
ghost use Rattle.std.specs.Option.{option_map};
ghost use Rattle.machine_model.specs.Board as model;
ghost use Rattle.rv_devices.specs.Named.{named};

use memory_map::{
    DISK_ADDR, DISK_CMD, DISK_COUNT, DISK_CTRL, DISK_SECTOR, DISK_STATUS, MTIME_HIGH, MTIME_LOW,
    MTIMECMP_HIGH, MTIMECMP_LOW, POWER, SERIAL_CTRL, SERIAL_DATA, SERIAL_STATUS,
};

/// A device register; `memory_map` says at its address what it is for.
#[derive(Clone, Copy)]
pub enum Register {
    CompareLow,
    CompareHigh,
    TimeLow,
    TimeHigh,
    SerialData,
    SerialStatus,
    SerialControl,
    DiskSector,
    DiskAddress,
    DiskCommand,
    DiskStatus,
    DiskControl,
    DiskCount,
    Power,
}

/// The register at an address, if one is there.
#[inline]
pub fn find(address: u32) -> Option<Register>
    ensures { option_map named result ≡ model.register_at address }
{
    match address {
        MTIMECMP_LOW => Some(Register::CompareLow),
        MTIMECMP_HIGH => Some(Register::CompareHigh),
        MTIME_LOW => Some(Register::TimeLow),
        MTIME_HIGH => Some(Register::TimeHigh),
        SERIAL_DATA => Some(Register::SerialData),
        SERIAL_STATUS => Some(Register::SerialStatus),
        SERIAL_CTRL => Some(Register::SerialControl),
        DISK_SECTOR => Some(Register::DiskSector),
        DISK_ADDR => Some(Register::DiskAddress),
        DISK_CMD => Some(Register::DiskCommand),
        DISK_STATUS => Some(Register::DiskStatus),
        DISK_CTRL => Some(Register::DiskControl),
        DISK_COUNT => Some(Register::DiskCount),
        POWER => Some(Register::Power),
        _ => None,
    }
}
