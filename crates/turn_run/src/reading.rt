//! A turn of a reader of the log.
ghost use Rattle.std.specs.Prelude.{◌≡◌, List};
ghost use Rattle.run_events.specs.declared.record.Record.{Record};
ghost use Rattle.turn_run.specs.Replicas.{IsReader, IsReaderOf, Turned};

use crate::Follower;
use gate_core::{Hub, Take};

/// What a turn of a reader came to.
#[derive(Clone, Copy, Debug, PartialEq, Eq)]
pub enum Turn {
    /// It took a record.
    Took,
    /// It has taken all of an open log.
    Empty,
    /// It has taken all of a closed log.
    Closed,
}

/// A turn of a follower, which is the hub's reader of this number, whatever records it has taken: it takes the next one,
/// where there is one, and posts below which step it approves then. It takes no memory.
pub fn read_next<F: Follower>(follower: &mut F, reader: u32, hub: &mut Hub) -> Turn
    requires { IsReader F.following hub.old reader follower.old }
    ensures turned { (items : List Record)
        → IsReaderOf F.following hub.old reader follower.old items
        → Turned F.following result hub.old hub.new reader follower.old follower.new items }
    ensures made { F.following.make follower.new ≡ F.following.make follower.old }
{
    match hub.take(reader) {
        Take::Got(item) => {
            follower.take(&item);
            hub.post(reader, follower.verdict());
            Turn::Took
        }
        Take::Empty { .. } => Turn::Empty,
        Take::Closed => Turn::Closed,
    }
}
