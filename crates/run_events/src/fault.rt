//! Where a list of records does not fit a machine, and why.

/// What is wrong with a list of records.
#[derive(Clone, Copy, Debug, PartialEq, Eq)]
pub enum Why {
    /// The step loads a device register, and no value was recorded for it.
    MissingLoad,
    /// A value was recorded for a step that loads no device register.
    UnusedLoad,
    /// A word of the disk is not for an aligned word of RAM.
    BadDma,
    /// The order of records does not admit the record.
    StepFalls,
    /// The guest ends at another step, or for another reason.
    EndsElsewhere,
}

/// The step at which a list of records goes wrong, and what is wrong there.
#[derive(Clone, Copy, Debug, PartialEq, Eq)]
pub struct Diverged {
    pub step: u32,
    pub why: Why,
}
