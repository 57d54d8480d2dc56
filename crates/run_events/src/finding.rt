//! Findings, their kinds, and the kinds of analyses.

/// The five analyses, in the order of their numbers from 0.
#[derive(Clone, Copy, Debug, PartialEq, Eq)]
pub enum Kind {
    /// The guest's heap: accesses to the redzones beside its blocks and to freed blocks, and frees of what is not live.
    Heap,
    /// Marked input: where it decides on a jump, or is about to leave.
    Taint,
    /// Returns: whether each goes back to where its call came from.
    Calls,
    /// Coverage: what was executed, and what of it outside the guest's code.
    Cover,
    /// Locks: how they are held, and accesses to what they guard.
    Locks,
}

/// What a finding complains of.
#[derive(Clone, Copy, Debug, PartialEq, Eq)]
pub enum FindingKind {
    /// Of the heap: an access touches a redzone.
    Red,
    /// Of the heap: an access touches a freed block.
    Freed,
    /// Of the heap: a block is freed that is not live throughout.
    BadFree,
    /// Of marked input: a jump goes to a marked address.
    Jump,
    /// Of marked input: a range that must be unmarked has a marked byte.
    Leak,
    /// Of calls: a return goes elsewhere than to where its call came from.
    Return,
    /// Of coverage: an instruction outside the guest's code was executed, or raised an exception.
    Outside,
    /// Of locks: a guarded byte is touched by a context that does not hold its lock.
    Unguarded,
    /// Of locks: a lock is acquired that is held.
    Reacquire,
    /// Of locks: a lock is released by a context that does not hold it.
    BadRelease,
}

/// One finding of an analysis: the step and the pc of its event, and the address that it is about; for a lock that is
/// acquired or released, the lock.
#[derive(Clone, Copy, Debug, PartialEq, Eq)]
pub struct Finding {
    pub step: u32,
    pub pc: u32,
    pub kind: FindingKind,
    pub address: u32,
}
