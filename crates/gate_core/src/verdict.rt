//! What a reader says of a run.

/// What a reader says of a run: that all steps below `approved` may be shown, and whether it refuses the rest.
#[derive(Clone, Copy, Debug, PartialEq, Eq)]
pub struct Verdict {
    pub approved: u32,
    pub refused: bool,
}
