//! The laws of the gate's order.
ghost use Rattle.gate_core.specs.Core.{ReleasesAll, RestsFinished, StaysSound, TakesNothingBack};

/// A law of the core, with nothing to run: every list of its events leads from the opening state to a sound one.
pub fn core_stays_sound()
    ensures { StaysSound }
{}

/// A law of the core, with nothing to run: whatever events come after a sound state, no record, approval or byte is taken
/// back, a closed log gets no record, and after a put that failed no record is appended and no byte released.
pub fn core_takes_nothing_back()
    ensures { TakesNothingBack }
{}

/// A law of the core, with nothing to run: where no put has failed, all records were taken, all that will be approved is,
/// and no byte may be released any more, the released bytes are exactly those that all required replicas approve.
pub fn core_releases_all()
    ensures { ReleasesAll }
{}

/// A law of the core, with nothing to run: the order never gets stuck. Where the log has a place, no put has failed
/// and no event that may come changes anything, all records were taken, all that will be approved is, no byte may be
/// released any more, and the log is closed.
pub fn core_rests_finished()
    ensures { RestsFinished }
{}
