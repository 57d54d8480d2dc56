//! A record, and the byte of output that it lets go.

use crate::Record;

/// A record of a run's log and, where the record says that a step is done which sent a byte, that byte of output. The
/// byte's step is the record's number less 1.
#[derive(Clone, Copy, Debug, PartialEq, Eq)]
pub struct Item {
    pub item: Record,
    pub byte: Option<u8>,
}
