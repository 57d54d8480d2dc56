//! How a run ended.
ghost use Rattle.std.specs.Prelude.{◌≡◌};
ghost use Rattle.turn_run.specs.Endings.{end_at};

use run_events::{EndCause, Record};

/// How a run ended: the number of its steps, and why.
#[derive(Clone, Copy, Debug, PartialEq, Eq)]
pub struct Ending {
    pub steps: u32,
    pub cause: EndCause,
}

impl Ending {
    /// The ending that a record tells, if it is the last one of a run.
    pub fn of(item: Record) -> Option<Ending>
        ensures { result ≡ end_at item }
    {
        match item {
            Record::End { step, cause } => Some(Ending { steps: step, cause }),
            _ => None,
        }
    }
}
