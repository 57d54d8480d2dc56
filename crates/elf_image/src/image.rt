//! Images, how a flat file gives one, and how one is loaded.
ghost use Rattle.memory_map.specs.declared.TheConstants.{LEAST_RAM_KIB, MOST_RAM_BYTES, MOST_RAM_KIB};
ghost use Rattle.std.specs.Prelude.{◌≡◌, ◌+◌, ◌*◌, ◌<◌, ◌≤◌, ◌^◌, ℕ, List, length, IfOk};
ghost use Rattle.machine_model.specs.Image.{flat_image, ram_at_start, ram_with, IsLoadable};

use memory_map::{NoMemory, RAM_START, SharedByThreads};
use rv_memory::Ram;
use std::alloc::Global;
use std::marker::Model;

/// A range of `size` addresses from `address` on. The file gives `bytes` for its beginning; the rest is zero. `executable`
/// tells whether it is code.
#[derive(Drop)]
pub struct Segment {
    pub address: u32,
    pub bytes: Vec<u8>,
    pub size: u32,
    pub executable: bool,
}

impl Model for Segment {
    ghost use Rattle.machine_model.specs.Image.{Segment as Range};

    ghost Value = { Range };

    ghost view = { λ s. record {
      address = s.address;
      bytes = s.bytes.items;
      size = s.size;
      executable = s.executable;
    } };
}

impl Segment {
    // An equal segment.
    fn copy(&self, alloc: Global) -> Result<Segment, NoMemory>
        ensures { IfOk result (λ segment. segment ≡ self.now) }
    {
        Ok(Segment {
            address: self.address,
            bytes: Vec::from_slice(alloc, &self.bytes)?,
            size: self.size,
            executable: self.executable,
        })
    }
}

/// What a guest's file gives: where it starts, and what stands in RAM before the first step.
#[derive(Drop)]
pub struct Image {
    pub entry: u32,
    pub segments: Vec<Segment>,
}

impl SharedByThreads for Image {}

impl Model for Image {
    ghost use Rattle.machine_model.specs.Image.{Image as Guest};

    ghost Value = { Guest };

    ghost view = { λ i. record { entry = i.entry; segments = i.segments.items } };
}

impl Image {
    /// The RAM that a guest of this image starts with, of `ram_kib` KiB: zero but for the segments' bytes.
    #[tactic(auto, unfolding(machine_model::specs::Image::ram_at_start))]
    pub fn start_ram(&self, alloc: Global, ram_kib: u32) -> Result<Ram, NoMemory>
        requires least { LEAST_RAM_KIB ≤ ram_kib }
        requires most { ram_kib ≤ MOST_RAM_KIB }
        requires loadable { IsLoadable (1024 * ram_kib) self.now.segments }
        ensures start { IfOk result (λ ram. ram ≡ ram_at_start self.now ram_kib) }
        ensures size { IfOk result (λ ram. length ram ≡ 1024 * ram_kib) }
    {
        let mut ram = Ram::new(alloc, ram_kib)?;
        self.load_into(&mut ram);
        Ok(ram)
    }

    // Puts the segments' bytes into RAM, in order. Each segment's bytes stand in that RAM.
    fn load_into(&self, ram: &mut Ram)
        requires { IsLoadable (length ram.old) self.now.segments }
        ensures loaded { ram.new ≡ ram_with self.now.segments ram.old }
        ensures size { length ram.new ≡ length ram.old }
    {
        for segment in &self.segments {
            ram.fill(segment.address, &segment.bytes);
        }
    }

    /// An equal image.
    pub fn copy(&self, alloc: Global) -> Result<Image, NoMemory>
        ensures { IfOk result (λ image. image ≡ self.now) }
    {
        let mut segments = Vec::with_capacity(alloc, self.segments.len())?;
        for segment in &self.segments {
            segments.push(segment.copy(alloc)?)?;
        }
        Ok(Image {
            entry: self.entry,
            segments,
        })
    }
}

/// The image of a file without a header: one executable segment at the start of RAM, where the guest starts too.
/// The file has at most as many bytes as the largest RAM.
pub fn read_flat(alloc: Global, file: Vec<u8>) -> Result<Image, NoMemory>
    requires { length file.items ≤ MOST_RAM_BYTES }
    ensures { IfOk result (λ image. image ≡ flat_image file.items) }
{
    let size = file.len() as u32;
    let segment = Segment {
        address: RAM_START,
        bytes: file,
        size,
        executable: true,
    };
    Ok(Image {
        entry: RAM_START,
        segments: vec![in alloc; segment]?,
    })
}
