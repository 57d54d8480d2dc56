//! The number and the range of a record.
ghost use Rattle.std.specs.Prelude.{◌≡◌, ◌↔◌, IsTrue};
ghost use Rattle.run_events.specs.Record as order;

use crate::Record;
use memory_map::MOST_STEPS;

/// The number of a record: the step that it comes before or belongs to, or how many steps it says are done.
pub fn number(r: &Record) -> u32
    ensures { result ≡ order.number r.now }
{
    match r {
        Record::Load { step, .. }
        | Record::Lines { step, .. }
        | Record::Dma { step, .. }
        | Record::Reach { step }
        | Record::End { step, .. } => *step,
    }
}

// The place of a record among those of its number.
pub(crate) fn rank(r: &Record) -> u32
    ensures { result ≡ order.rank r.now }
{
    match r {
        Record::Reach { .. } => 0,
        Record::Dma { .. } => 1,
        Record::Lines { .. } => 2,
        Record::Load { .. } => 3,
        Record::End { .. } => 4,
    }
}

// Whether a record is a word of the disk.
pub(crate) fn is_dma(r: &Record) -> bool
    ensures { result ≡ order.is_dma r.now }
{
    matches!(r, Record::Dma { .. })
}

// Whether a record is the end of a log.
pub(crate) fn is_end(r: &Record) -> bool
    ensures { result ≡ order.is_end r.now }
{
    matches!(r, Record::End { .. })
}

/// Whether a record has its two words: its number is at most `MOST_STEPS`, its lines are two bits, its mark is 0 or 1.
pub fn is_record(r: &Record) -> bool
    ensures { IsTrue result ↔ order.IsRecord r.now }
{
    match r {
        Record::Load { step, mark, .. } | Record::Dma { step, mark, .. } => {
            *step <= MOST_STEPS && *mark <= 1
        }
        Record::Lines { step, bits } => *step <= MOST_STEPS && *bits <= 3,
        Record::Reach { step } => *step <= MOST_STEPS,
        Record::End { step, .. } => *step <= MOST_STEPS,
    }
}
