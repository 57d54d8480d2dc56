//! The trait of sinks.
ghost use Rattle.std.specs.Prelude.{OnOk, OnErr};
ghost use Rattle.after_edge.specs.Sink.{Telling, Writes, WritesPart};

/// The outside failed.
#[derive(Clone, Copy, Debug, PartialEq, Eq)]
pub struct Failed;

/// Something that takes bytes, one piece after another.
pub trait Sink {
    /// Which bytes it holds, and how many of its puts have failed. A count saturates at the end of its type.
    ghost told: { Telling Self };

    /// Adds the piece. It fails only where the count of faults rose in this call, and then some prefix of the piece was
    /// added.
    fn put(&mut self, piece: &[u8]) -> Result<(), Failed>
        ensures ok { OnOk result (Writes told self.old self.new piece.now) }
        ensures err { OnErr result (WritesPart told self.old self.new piece.now) };
}
