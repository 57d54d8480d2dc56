//! What a reader gets.
use run_events::Record;

/// What a reader gets of a log.
#[derive(Clone, Copy, Debug, PartialEq, Eq)]
pub enum Take {
    /// The record with the reader's number.
    Got(Record),
    /// The reader has taken all of an open log; `head` is how many records were appended.
    Empty { head: u64 },
    /// The reader has taken all of a closed log.
    Closed,
}
