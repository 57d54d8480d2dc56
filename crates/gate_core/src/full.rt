//! The answer that a log is full.

/// The log has no place for a record, because this reader has taken no more records than `taken`.
#[derive(Clone, Copy, Debug, PartialEq, Eq)]
pub struct Full {
    pub reader: u32,
    pub taken: u64,
}
