//! The recorder, and the item that waits for its place in the log.
ghost use Rattle.std.specs.Prelude.{◌≡◌, ◌+◌, ◌<◌, ◌≤◌, ◌∷◌, [], List, None, MatchOption};
ghost use Rattle.run_events.specs.declared.item.Item.{Item};
ghost use Rattle.turn_run.specs.Sources.{IsNextOf, StillToCome, items_left, waiting_item};

use any_machine::{Advance, Recorder};
use run_events::Item;

/// The recorder, and the item that it has given and that waits for its place in the log.
#[derive(Drop)]
pub struct Source<M: Recorder> {
    pub(crate) recorder: M,
    pub(crate) waiting: Option<Item>,
}

impl<M: Recorder> Source<M> {
    /// A recorder whose items all are still to come.
    pub fn new(recorder: M) -> Source<M>
        ensures { (items : List Item)
            → M.recording.to_come recorder items
            → StillToCome M.recording result items }
    {
        Source {
            recorder,
            waiting: None,
        }
    }

    /// The item that waits, or else the next one; none where none is left.
    pub fn next(&mut self) -> Option<Item>
        ensures given { (items : List Item)
            → StillToCome M.recording self.old items
            → IsNextOf M.recording items self.new result }
        ensures waiting { waiting_item self.new ≡ None }
        ensures falls { MatchOption result
            (items_left M.recording self.new ≤ items_left M.recording self.old)
            (λ _. items_left M.recording self.new < items_left M.recording self.old) }
    {
        if let Some(item) = self.waiting {
            self.waiting = None;
            return Some(item);
        }
        match self.recorder.advance() {
            Advance::Item { item, byte } => Some(Item { item, byte }),
            Advance::Ended => None,
        }
    }

    /// Takes the item back that was the last one given.
    pub fn put_back(&mut self, item: Item)
        requires { waiting_item self.old ≡ None }
        ensures back { (items : List Item)
            → StillToCome M.recording self.old items
            → StillToCome M.recording self.new (item ∷ items) }
        ensures left { items_left M.recording self.new ≤ items_left M.recording self.old + 1 }
    {
        self.waiting = Some(item);
    }
}
