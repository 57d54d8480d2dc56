//! A file read whole, within a limit.
ghost use Rattle.std.specs.Prelude.{◌≡◌, ◌<◌, ◌≤◌, Some, length, vec_len, IfOk};
ghost use Rattle.after_edge.specs.Files.{IfTold};
ghost use Rattle.after_edge.specs.Reading.{HasFileCause};

use crate::{Files, ReadFault};
use std::alloc::Global;

/// Why a file was not read whole.
#[derive(Clone, Copy, Debug, PartialEq, Eq)]
pub enum FileFault {
    /// There is no file of this name.
    Absent,
    /// The outside failed.
    Failed,
    /// The file has more bytes than the caller takes.
    TooLong {
        /// The most bytes that the caller takes.
        max: usize,
    },
    /// There was no memory for the bytes, after some were read. No clause says that the allocator refused any.
    NoMemory,
}

/// How many bytes are asked for at a time.
const CHUNK: usize = 4096;

/// The whole file, where it has at most `max` bytes.
/// Whatever the answer, the files' content is as before, and the bytes that were read are given up with an error.
pub fn read_all<F: Files>(
    alloc: Global,
    files: &mut F,
    name: &str,
    max: usize,
) -> Result<Vec<u8>, FileFault>
    ensures whole { IfOk result (λ bytes. IfTold (F.content files.old) (λ told. told name.now
        ≡ Some bytes.items)) }
    ensures within { IfOk result (λ bytes. vec_len bytes ≤ max) }
    ensures cause { HasFileCause (F.content files.old) name.now max (F.faults files.old)
        (F.faults files.new) result }
    ensures same { F.content files.new ≡ F.content files.old }
{
    let mut buffer = [0u8; CHUNK];
    read_through(alloc, files, name, max, &mut buffer)
}

// Reads to the file's end, a buffer at a time.
fn read_through<F: Files>(
    alloc: Global,
    files: &mut F,
    name: &str,
    max: usize,
    buffer: &mut [u8],
) -> Result<Vec<u8>, FileFault>
    requires { 0 < length buffer.old }
    ensures whole { IfOk result (λ bytes. IfTold (F.content files.old) (λ told. told name.now
        ≡ Some bytes.items)) }
    ensures within { IfOk result (λ bytes. vec_len bytes ≤ max) }
    ensures cause { HasFileCause (F.content files.old) name.now max (F.faults files.old)
        (F.faults files.new) result }
    ensures same { F.content files.new ≡ F.content files.old }
{
    let mut bytes = Vec::new(alloc);
    'pieces: loop {
        let count = match files.read(name, bytes.len() as u64, buffer) {
            Ok(count) => count,
            Err(ReadFault::Absent) => return Err(FileFault::Absent),
            Err(ReadFault::Failed) => return Err(FileFault::Failed),
        };
        if count == 0 {
            return Ok(bytes);
        }
        if max - bytes.len() < count {
            return Err(FileFault::TooLong { max });
        }
        match bytes.extend_from_slice(&buffer[..count]) {
            Ok(()) => {}
            Err(_) => return Err(FileFault::NoMemory),
        }
    }
}
