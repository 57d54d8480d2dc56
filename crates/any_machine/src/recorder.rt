//! The trait of recorders: what hands out the items of a run.
ghost use Rattle.std.specs.Prelude.{List};
ghost use Rattle.run_events.specs.declared.item.Item.{Item};
ghost use Rattle.any_machine.specs.Recording.{Advances, Falls, Recording};

use run_events::Record;

/// What a recorder hands out next.
#[derive(Clone, Copy, Debug, PartialEq, Eq)]
pub enum Advance {
    /// The next record of the run, and the byte of output whose step it says is done.
    Item { item: Record, byte: Option<u8> },
    /// All records of the run were handed out, the end among them.
    Ended,
}

/// Something that runs a guest on, from one record of its log to the next.
pub trait Recorder: Drop {
    /// Which items are still to come, and a bound on how many.
    ghost recording: { Recording Self };

    /// Runs on to the next record. Ended comes exactly where none is left, and then at each later call. It takes no memory.
    fn advance(&mut self) -> Advance
        ensures given { (items : List Item)
            → recording.to_come self.old items
            → Advances recording items self.new result }
        ensures falls { Falls recording self.old self.new result };
}
