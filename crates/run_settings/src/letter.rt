//! The letters of a pattern of turns.

/// Whose turn it is.
#[derive(Clone, Copy, Debug, PartialEq, Eq)]
pub enum Letter {
    /// The recorder's.
    Record,
    /// That of the follower with this number.
    Read(u32),
    /// The gate's.
    Release,
}
