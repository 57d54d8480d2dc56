//! What the head of a report tells of a run.
use run_events::EndCause;

/// What the head of the report tells of a run.
#[derive(Clone, Copy, Debug, PartialEq, Eq)]
pub struct RunFacts {
    /// The number of steps.
    pub steps: u32,
    /// Why it ended.
    pub end: EndCause,
    /// How many bytes of output the guest issued.
    pub issued: u32,
    /// How many of them were released.
    pub released: u32,
    /// The number of records of its log.
    pub items: u64,
}
