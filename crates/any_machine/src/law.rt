//! The law that a run's own log fits.
ghost use Rattle.any_machine.specs.Law.{PrefixesFit, PrefixesShowSteps, WholeShowsAll};

use crate::Hart;

/// A law of a hart, with nothing to run. Each prefix of the log of a run of it, whatever its devices were, fits the hart;
/// what a replay of the prefix shows is the run's events below its reach, and then those words from the disk whose records
/// it has. Of the whole log all events are shown.
pub fn prefix_fits<H: Hart>()
    ensures fits { PrefixesFit H.machine }
    ensures by_steps { PrefixesShowSteps H.machine H.done }
    ensures whole { WholeShowsAll H.machine }
{}
