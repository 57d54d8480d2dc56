//! How far a recorder has come with a step.
use run_events::{EndCause, Supplied};

/// How far a recorder has come with a step.
#[derive(Clone, Copy)]
pub enum Phase {
    /// The next step has not begun.
    Between,
    /// It has begun, and the disk may still have words to write before it.
    Words,
    /// The words are written, and the lines are not told.
    Lines,
    /// The lines are told, and it is open what the step needs.
    Need,
    /// A device register gave the step this.
    Given { supplied: Supplied },
    /// The last step was done, and the record of the end is still to be given.
    Ending { cause: EndCause },
    /// The record of the end was given.
    Over,
}
