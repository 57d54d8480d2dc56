//! The trait of files, and why a read gives nothing.
ghost use Rattle.std.specs.Prelude.{◌≡◌, ◌<◌, ◌≤◌, ℕ, Option, length, take, IfOk, OnOk, OnErr};
ghost use Rattle.after_edge.specs.Fault.{Counts};
ghost use Rattle.after_edge.specs.Files.{Contents, IfTold, Reads, HasReadCause, Changes, IsBegun, MayBeBegun, IsAppended, MayBeAppended};

use crate::Failed;

/// Why a read gave nothing.
#[derive(Clone, Copy, Debug, PartialEq, Eq)]
pub enum ReadFault {
    /// There is no file of this name.
    Absent,
    /// The outside failed.
    Failed,
}

/// Files that are read and written by name.
pub trait Files {
    /// What they contain: from names to bytes, where they tell it. The host's files do not.
    ghost content: { Self → Option Contents };

    /// How many of their calls have failed; where content is told, a read of an absent file is none of them. A call that did
    /// not fail leaves the count alone. It saturates at the end of its type.
    ghost faults: { Self → ℕ };

    /// Reads from byte `at` of the file into the buffer, and answers the number of bytes read.
    /// It is 0 exactly where `at` is at or past the file's end.
    fn read(&mut self, name: &str, at: u64, buf: &mut [u8]) -> Result<usize, ReadFault>
        requires { 0 < length buf.old }
        ensures within { IfOk result (λ count. count ≤ length buf.new) }
        ensures read { IfOk result (λ count. IfTold (content self.old)
            (λ files. Reads files name.now at count (take count buf.new))) }
        ensures cause { HasReadCause (content self.old) name.now (faults self.old)
            (faults self.new) result }
        ensures same { content self.new ≡ content self.old };

    /// Makes the file empty, and makes one where there is none. Where it fails, the file is as before or empty.
    fn begin(&mut self, name: &str) -> Result<(), Failed>
        ensures ok { OnOk result (Changes (content self.old) (content self.new) name.now IsBegun) }
        ensures err { OnErr result
            (Changes (content self.old) (content self.new) name.now MayBeBegun) }
        ensures counted { Counts result (faults self.old) (faults self.new) };

    /// Adds the piece at the file's end, and first makes a file that is absent.
    /// Where it fails, some prefix of the piece was added.
    fn append(&mut self, name: &str, piece: &[u8]) -> Result<(), Failed>
        ensures ok { OnOk result
            (Changes (content self.old) (content self.new) name.now (IsAppended piece.now)) }
        ensures err { OnErr result
            (Changes (content self.old) (content self.new) name.now (MayBeAppended piece.now)) }
        ensures counted { Counts result (faults self.old) (faults self.new) };
}
