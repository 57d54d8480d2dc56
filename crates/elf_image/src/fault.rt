//! Why a file gives no image.
ghost use Rattle.std.specs.Prelude.{◌≡◌};
ghost use Rattle.elf_image.specs.declared.fault.ImageFault.TheVariants.{NoMemory};

use std::alloc::{AllocError, AllocFailed};

/// Why a file gives no image. The faults of a file with a header are looked for in the order of `read`.
#[derive(Clone, Copy, Debug, PartialEq, Eq)]
pub enum ImageFault {
    /// The file has fewer bytes than this.
    Short { need: u64 },
    /// It is no executable of 32 bits for RISC-V, by the field at this place.
    NotThis { field: u32 },
    /// It has more than 64 program headers, or their size is not 32.
    BadTable,
    /// The header of this number has more bytes in the file than in RAM.
    SegmentShape { index: u32 },
    /// The segment of this header does not stand in RAM.
    SegmentOutside { index: u32 },
    /// The segments of two headers share an address.
    Overlap { first: u32, second: u32 },
    /// There is nothing to load.
    NoSegment,
    /// The guest would start outside RAM, or not at a multiple of 4.
    EntryOutside,
    /// There was no memory.
    NoMemory,
}

impl From<AllocError> for ImageFault {
    ghost from_gives = { λ _ e. e ≡ NoMemory };

    fn from(_e: AllocError) -> ImageFault {
        ImageFault::NoMemory
    }
}

impl<T: Drop> From<AllocFailed<T>> for ImageFault {
    ghost from_gives = { λ _ e. e ≡ NoMemory };

    fn from(_e: AllocFailed<T>) -> ImageFault {
        ImageFault::NoMemory
    }
}
