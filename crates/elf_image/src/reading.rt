//! Reading a guest's file.
ghost use Rattle.memory_map.specs.declared.TheConstants.{LEAST_RAM_KIB, MOST_RAM_KIB};
ghost use Rattle.std.specs.Prelude.{◌*◌, ◌≤◌, IfOk};
ghost use Rattle.format_model.specs.ImageFile.{image_in, ImageFits};
ghost use Rattle.elf_image.specs.Reads.{Gives, IfNoMemory, IsBegun};

use crate::elf::{elf_in, is_elf};
use crate::fault::ImageFault;
use crate::image::{Image, read_flat};
use std::alloc::Global;

// The image of a file, for a RAM of so many KiB.
#[tactic(auto, unfolding(format_model::specs::ImageFile::image_in))]
fn image_in(alloc: Global, file: &[u8], ram_kib: u32) -> Result<Image, ImageFault>
    requires { ram_kib ≤ MOST_RAM_KIB }
    ensures exact { Gives (λ i. i) result (image_in ram_kib file.now) }
    ensures memory { IfNoMemory result (IsBegun ram_kib file.now) }
{
    let size = 1024 * ram_kib;
    if is_elf(file) {
        return elf_in(alloc, file, size);
    }
    if file.len() > size as usize {
        return Err(ImageFault::SegmentOutside { index: 0 });
    }
    Ok(read_flat(alloc, Vec::from_slice(alloc, file)?)?)
}

/// The image of a file, for a RAM of so many KiB, or the first fault. A file that does not begin as ELF does is one
/// executable segment at the start of RAM, where the guest starts too. One that does is an executable of 32 bits for
/// RISC-V, little-endian, and gives a segment for each program header of type 1 that has bytes in RAM; other headers are
/// passed over. It is looked at in this order: the length of its header, its kind, the table of program headers, each of
/// them in turn, whether two segments share an address, whether there is one, and where the guest starts.
pub fn read(alloc: Global, bytes: &[u8], ram_kib: u32) -> Result<Image, ImageFault>
    requires least { LEAST_RAM_KIB ≤ ram_kib }
    requires most { ram_kib ≤ MOST_RAM_KIB }
    // The image or the first fault, unless there is no memory.
    ensures exact { Gives (λ i. i) result (image_in ram_kib bytes.now) }
    // Memory is asked for only once header and table are right, or a file without a header is not too long.
    ensures memory { IfNoMemory result (IsBegun ram_kib bytes.now) }
    // The image can be loaded into such a RAM.
    ensures fits { IfOk result (λ i. ImageFits (1024 * ram_kib) i) }
{
    image_in(alloc, bytes, ram_kib)
}
