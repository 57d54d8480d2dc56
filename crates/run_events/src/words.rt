//! The two words of a record.
ghost use Rattle.std.specs.Prelude.{◌≡◌, IfSome};
ghost use Rattle.run_events.specs.declared.record.Record.{Record};
ghost use Rattle.run_events.specs.Record.{IsRecord};
ghost use Rattle.run_events.specs.Words as spec;

use crate::numbers::{is_record, number};
use crate::{EndCause, Record};
use memory_map::{high_half, low_half};

// The number of the kind of a record.
fn kind(r: &Record) -> u64
    ensures { result ≡ spec.kind r.now }
{
    match r {
        Record::Load { .. } => 1,
        Record::Lines { .. } => 2,
        Record::Dma { .. } => 3,
        Record::Reach { .. } => 4,
        Record::End { .. } => 5,
    }
}

// The mark of a record, 0 where it has none.
fn mark(r: &Record) -> u8
    ensures { result ≡ spec.mark_of r.now }
{
    match r {
        Record::Load { mark, .. } | Record::Dma { mark, .. } => *mark,
        Record::Lines { .. } | Record::Reach { .. } | Record::End { .. } => 0,
    }
}

// The second word of a record, as `to_words` says.
fn second_word(r: &Record) -> u64
    ensures word { result ≡ spec.second_word r.now }
    ensures fits { spec.FitsWord r.now }
{
    match r {
        Record::Load { value, .. } => u64::from(*value),
        Record::Lines { bits, .. } => u64::from(*bits),
        Record::Dma { address, word, .. } => u64::from(*address) + 0x1_0000_0000 * u64::from(*word),
        Record::End {
            cause: EndCause::Power { status },
            ..
        } => u64::from(*status),
        Record::End {
            cause: EndCause::Limit,
            ..
        } => 256,
        Record::Reach { .. } => 0,
    }
}

/// The two words of a record. The first is its number, and from bit 32 on its kind (1 Load, 2 Lines, 3 Dma, 4 Reach,
/// 5 End) and from bit 40 on its mark. The second is a Load's value; the bits of Lines; of Dma the address, and from
/// bit 32 on the word; 0 of Reach; of End the status, or 256 for the limit.
pub fn to_words(r: &Record) -> (u64, u64)
    requires { IsRecord r.now }
    ensures { spec.AreWordsOf r.now result.0 result.1 }
{
    let first = u64::from(number(r))
        + 0x1_0000_0000 * kind(r)
        + 0x100_0000_0000 * u64::from(mark(r));
    (first, second_word(r))
}

// Why a run ended, by the second word of its End.
fn cause_in(second: u64) -> EndCause
    ensures { result ≡ spec.cause_in second }
{
    if second == 256 {
        EndCause::Limit
    } else {
        EndCause::Power {
            status: (second % 0x100) as u8,
        }
    }
}

// The one record that these words can be those of.
fn record_in_words(first: u64, second: u64) -> Option<Record>
    ensures { result ≡ spec.record_in_words first second }
{
    let step = low_half(first);
    let mark = (first / 0x100_0000_0000 % 0x100) as u8;
    match first / 0x1_0000_0000 % 0x100 {
        1 => Some(Record::Load {
            step,
            value: low_half(second),
            mark,
        }),
        2 => Some(Record::Lines {
            step,
            bits: (second % 0x100) as u8,
        }),
        3 => Some(Record::Dma {
            step,
            address: low_half(second),
            word: high_half(second),
            mark,
        }),
        4 => Some(Record::Reach { step }),
        5 => Some(Record::End {
            step,
            cause: cause_in(second),
        }),
        _ => None,
    }
}

/// The record with these two words, and None exactly where no record has them.
pub fn of_words(first: u64, second: u64) -> Option<Record>
    ensures found { IfSome result (λ item. spec.AreWordsOf item first second) }
    ensures only { (item : Record) → spec.AreWordsOf item first second → result ≡ Some item }
{
    match record_in_words(first, second) {
        Some(item) if is_record(&item) && to_words(&item) == (first, second) => Some(item),
        _ => None,
    }
}
