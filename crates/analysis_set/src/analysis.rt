//! What each analysis tells of the events that it has seen.
ghost use Rattle.std.specs.Prelude.{◌≡◌, List};
ghost use Rattle.run_events.specs.declared.event.Event.{Event};
ghost use Rattle.analysis_model.specs.Complaints.{findings};
ghost use Rattle.analysis_model.specs.Findings.{first_step, tally, kept};
ghost use Rattle.analysis_model.specs.Made.{kind_made_of, guest_made_of};

use run_events::{Finding, Watcher};

/// A watcher of a run that keeps findings. With one event more it stands for the events before, followed by that one.
pub trait Analysis: Watcher {
    /// The step of the first finding.
    fn first(&self) -> Option<u32>
        ensures seen { (h : List Event) → Self.has_seen self.now h →
            result ≡ first_step (findings (kind_made_of (Self.make self.now))
            (guest_made_of (Self.ram_kib self.now) (Self.make self.now)) h) };

    /// How many findings there are, at most 2^64 - 1.
    fn count(&self) -> u64
        ensures seen { (h : List Event) → Self.has_seen self.now h →
            result ≡ tally (findings (kind_made_of (Self.make self.now))
            (guest_made_of (Self.ram_kib self.now) (Self.make self.now)) h) };

    /// The first findings, at most 64, in order.
    fn kept(&self) -> &[Finding]
        ensures seen { (h : List Event) → Self.has_seen self.now h →
            result.now ≡ kept (findings (kind_made_of (Self.make self.now))
            (guest_made_of (Self.ram_kib self.now) (Self.make self.now)) h) };
}
