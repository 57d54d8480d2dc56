//! The host's streams.
ghost use Rattle.std.specs.Prelude.{◌≡◌, ℕ, true, List, is_err, OnOk, OnErr};
ghost use Rattle.std.specs.Io.KnownBytes.{Appends, Keeps};
ghost use Rattle.after_edge.specs.Fault.{Counted};
ghost use Rattle.after_edge.specs.Sink.{Writes, WritesPart};

use crate::{Failed, Sink};
use std::io;
use std::io::Write;

/// A writer of the host, as standard output, as a sink. It tells nothing of what it holds.
#[derive(Drop)]
pub struct StdSink<W: Write + Drop> {
    writer: W,
    faults: u64,
}

impl<W: Write + Drop> StdSink<W> {
    ghost use Rattle.after_edge.specs.Host.{puts_failed, writer_of};

    /// A sink that has not failed yet.
    pub fn new(writer: W) -> StdSink<W>
        ensures writer { writer_of result ≡ writer }
        ensures faults { puts_failed result ≡ 0 }
    {
        StdSink { writer, faults: 0 }
    }

    // Counts a failure of the writer.
    fn fail(&mut self) -> Failed
        ensures counted { Counted true (puts_failed self.old) (puts_failed self.new) }
        ensures writer { writer_of self.new ≡ writer_of self.old }
    {
        self.faults = self.faults.saturating_add(1);
        Failed
    }

    /// Has the writer hand on what it holds back. The count rises exactly where that fails.
    pub fn flush(&mut self) -> Result<(), Failed>
        ensures counted { Counted (is_err result) (puts_failed self.old) (puts_failed self.new) }
        ensures kept { Keeps (W.contents (writer_of self.old)) (W.contents (writer_of self.new)) }
    {
        match self.writer.flush() {
            Ok(()) => Ok(()),
            Err(_) => Err(self.fail()),
        }
    }
}

impl<W: Write + Drop> Sink for StdSink<W> {
    ghost use Rattle.after_edge.specs.Host.{host_sink, puts_failed, writer_of};

    ghost told = { host_sink };

    /// Writes the whole piece; a writer with a buffer may hold some of it back. The count rises exactly where that fails.
    fn put(&mut self, piece: &[u8]) -> Result<(), Failed>
        ensures ok { OnOk result (Writes host_sink self.old self.new piece.now) }
        ensures err { OnErr result (WritesPart host_sink self.old self.new piece.now) }
        ensures counted { Counted (is_err result) (puts_failed self.old) (puts_failed self.new) }
        ensures written { OnOk result (Appends (W.contents (writer_of self.old))
            (W.contents (writer_of self.new)) piece.now) }
    {
        match self.writer.write_all(piece) {
            Ok(()) => Ok(()),
            Err(_) => Err(self.fail()),
        }
    }
}
