//! The trait of what looks at events.
ghost use Rattle.std.specs.Prelude.{◌≡◌, ℕ, false, IsTrue, List, [], ◌∷◌, ◌++◌};
ghost use Rattle.run_events.specs.declared.event.Event.{Event};
ghost use Rattle.run_events.specs.Event.{Fits};

use crate::Event;

/// Something that looks at the events of a run, one after another.
pub trait Watcher {
    /// It stands for this list of events.
    ghost has_seen: { Self → List Event → Type 0 };

    /// The RAM size of the runs that it watches, in KiB.
    ghost ram_kib: { Self → ℕ };

    /// What it was made of, as numbers.
    ghost make: { Self → List ℕ };

    /// Looks at the next event.
    fn see(&mut self, event: &Event)
        requires { Fits (ram_kib self.old) event.now }
        ensures seen { (h : List Event)
            → has_seen self.old h
            → has_seen self.new (h ++ event.now ∷ []) }
        ensures size { ram_kib self.new ≡ ram_kib self.old }
        ensures made { make self.new ≡ make self.old };

    /// Looks at the next event, where there is a short way to do so. Where it answers false it is as before, and `see` has
    /// to look at the event.
    #[inline(always)]
    fn try_see(&mut self, event: &Event) -> bool
        requires { Fits (ram_kib self.old) event.now }
        ensures seen { (h : List Event)
            → IsTrue result
            → has_seen self.old h
            → has_seen self.new (h ++ event.now ∷ []) }
        ensures same { result ≡ false → self.new ≡ self.old }
        ensures size { ram_kib self.new ≡ ram_kib self.old }
        ensures made { make self.new ≡ make self.old }
    {
        false
    }
}

/// Shows the next event to a watcher. Where the watcher has a short way to look at it, the event stays where it was made,
/// piece by piece; only else it is written down whole.
#[inline(always)]
pub fn show<W: Watcher>(event: Event, seen: &mut W)
    requires { Fits (W.ram_kib seen.old) event }
    ensures seen { (h : List Event)
        → W.has_seen seen.old h
        → W.has_seen seen.new (h ++ event ∷ []) }
    ensures size { W.ram_kib seen.new ≡ W.ram_kib seen.old }
    ensures made { W.make seen.new ≡ W.make seen.old }
{
    if !seen.try_see(&event) {
        let whole = event;
        seen.see(&whole);
    }
}
