//! The trait of what follows a log.
ghost use Rattle.std.specs.Prelude.{◌≡◌, ◌≤◌, List, [], ◌∷◌, ◌++◌};
ghost use Rattle.run_events.specs.declared.record.Record.{Record};
ghost use Rattle.run_events.specs.Record.{IsRecord};
ghost use Rattle.turn_run.specs.Following.{Following, SaysNothing, SaysSame};

use gate_core::Verdict;
use run_events::Record;

/// Something that takes the records of a log one after another, whatever they are, and says below which step it approves.
pub trait Follower: Drop {
    /// Which records it has taken, what it says once it has taken some, and what it was made of.
    ghost following: { Following Self };

    /// Takes the next record. It takes no memory.
    fn take(&mut self, item: &Record)
        requires { IsRecord item.now }
        ensures taken { (items : List Record)
            → following.has_taken self.old items
            → following.has_taken self.new (items ++ item.now ∷ []) }
        ensures same { SaysSame following self.old self.new }
        ensures made { following.make self.new ≡ following.make self.old };

    /// Below which step it approves, and whether it refuses the rest.
    fn verdict(&self) -> Verdict
        ensures { (items : List Record)
            → following.has_taken self.now items
            → result ≡ following.verdict self.now items };

    /// Before its first record it approves nothing.
    ghost starts: { (f : Self) → SaysNothing (following.verdict f []) };

    /// What it has approved it does not take back.
    ghost rises: { (f : Self) (items : List Record) (item : Record)
        → (following.verdict f items).approved
        ≤ (following.verdict f (items ++ item ∷ [])).approved };
}
