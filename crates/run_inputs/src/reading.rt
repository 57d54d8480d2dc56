//! The bytes of a run's files.
ghost use Rattle.memory_map.specs.declared.TheConstants.{MOST_DISK_BYTES};
ghost use Rattle.std.specs.Prelude.{◌≡◌, ◌≤◌, Ok, Some, OnOk, IfOk, IfErr, length, option_copied};
ghost use Rattle.run_inputs.specs.Faults.{HasCause};
ghost use Rattle.run_inputs.specs.Files.{Comes, IsDiskFound, IsFound};
ghost use Rattle.run_inputs.specs.Given.{bytes_in};
ghost use Rattle.run_inputs.specs.Read.{IsDiskRefused, IsFileRefused, bytes_of};

use crate::InputFault;
use after_edge::{FileFault, Files, read_all};
use memory_map::MOST_DISK_BYTES;
use std::alloc::Global;

/// The most bytes of an image's file.
const IMAGE_MAX: usize = 0x200_0000;

/// The most bytes of a script's file.
const SCRIPT_MAX: usize = 0x10_0000;

/// The bytes of a run's files; those of the disk are none where no disk is named.
#[derive(Drop)]
pub struct FileBytes {
    pub image: Vec<u8>,
    pub script: Vec<u8>,
    pub disk: Vec<u8>,
}

// One file, of at most so many bytes.
fn read_file<F: Files>(
    alloc: Global,
    files: &mut F,
    name: &str,
    max: usize,
    too_long: InputFault,
) -> Result<Vec<u8>, InputFault>
    ensures read { IfOk result
        (λ bytes. IsFound (F.content files.old) name.now (Some bytes.items)) }
    ensures within { IfOk result (λ bytes. length bytes.items ≤ max) }
    ensures still { OnOk result (F.faults files.new ≡ F.faults files.old) }
    ensures refused { IfErr result
        (IsFileRefused (F.content files.old) name.now max too_long (F.faults files.old)
        (F.faults files.new)) }
    ensures same { F.content files.new ≡ F.content files.old }
{
    match read_all(alloc, files, name, max) {
        Ok(bytes) => Ok(bytes),
        Err(FileFault::Absent) => Err(InputFault::Files),
        Err(FileFault::Failed) => Err(InputFault::Files),
        Err(FileFault::TooLong { .. }) => Err(too_long),
        Err(FileFault::NoMemory) => Err(InputFault::NoMemory),
    }
}

// The disk's file, if there is one.
fn read_disk<F: Files>(
    alloc: Global,
    files: &mut F,
    name: Option<&str>,
) -> Result<Vec<u8>, InputFault>
    ensures read { IfOk result
        (λ bytes. IsDiskFound (F.content files.old) (option_copied name.entry) (Some bytes.items)) }
    ensures within { IfOk result (λ bytes. length bytes.items ≤ MOST_DISK_BYTES) }
    ensures still { OnOk result (F.faults files.new ≡ F.faults files.old) }
    ensures refused { IfErr result (IsDiskRefused (F.content files.old) (option_copied name.entry)
        (F.faults files.old) (F.faults files.new)) }
    ensures same { F.content files.new ≡ F.content files.old }
{
    match name {
        Some(name) => read_file(alloc, files, name, MOST_DISK_BYTES, InputFault::DiskTooLong),
        None => Ok(Vec::new(alloc)),
    }
}

/// Reads the files of a run: the image, the script, and the disk if there is one.
pub fn read_bytes<F: Files>(
    alloc: Global,
    files: &mut F,
    image: &str,
    script: &str,
    disk: Option<&str>,
) -> Result<FileBytes, InputFault>
    ensures ok { IfOk result (λ bytes. Comes bytes_in (F.content files.old)
        (record { image = image.now; script = script.now; disk = option_copied disk.entry })
        (Ok (bytes_of bytes))) }
    ensures still { OnOk result (F.faults files.new ≡ F.faults files.old) }
    ensures cause { IfErr result (HasCause bytes_in (F.content files.old)
        (record { image = image.now; script = script.now; disk = option_copied disk.entry })
        (F.faults files.old) (F.faults files.new)) }
    ensures same { F.content files.new ≡ F.content files.old }
{
    let image = match read_file(alloc, files, image, IMAGE_MAX, InputFault::ImageTooLong) {
        Ok(image) => image,
        Err(fault) => return Err(fault),
    };
    let script = match read_file(alloc, files, script, SCRIPT_MAX, InputFault::ScriptTooLong) {
        Ok(script) => script,
        Err(fault) => return Err(fault),
    };
    match read_disk(alloc, files, disk) {
        Ok(disk) => Ok(FileBytes {
            image,
            script,
            disk,
        }),
        Err(fault) => Err(fault),
    }
}
