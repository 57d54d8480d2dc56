//! The order of records.
ghost use Rattle.std.specs.Prelude.{◌≡◌};
ghost use Rattle.run_events.specs.Record as order;

use crate::Record;
use crate::numbers::{is_dma, is_end, number, rank};

// The most words of the disk that have one number.
const MOST_WORDS: u32 = 128;

// Whether a record may stand after the last one. Where that is a word of the disk, `words` have its number.
fn may_follow(last: &Record, words: u32, r: &Record) -> bool
    ensures { order.TellsFollow last.now words r.now result }
{
    let more_words = is_dma(last) && is_dma(r) && words < MOST_WORDS;
    let rises = rank(last) < rank(r) || more_words;
    !is_end(last) && (number(last) < number(r) || number(last) == number(r) && rises)
}

// Whether a record and the last one are words of the disk with one number.
fn is_next_dma(last: Option<Record>, r: &Record) -> bool
    ensures { result ≡ order.is_next_dma last r.now }
{
    match last {
        Some(last) => is_dma(&last) && is_dma(r) && number(&last) == number(r),
        None => false,
    }
}

// How many words of the disk have the number of a record that may stand after the last one, with it.
fn words_with(last: Option<Record>, words: u32, r: &Record) -> u32
    ensures { order.CountsDmas last words r.now result }
{
    if is_next_dma(last, r) {
        words.saturating_add(1)
    } else if is_dma(r) {
        1
    } else {
        0
    }
}

/// The order of records, which are given one after another. Contracts see those that were admitted by `InOrder`.
#[derive(Clone, Copy)]
pub struct Sequence {
    last: Option<Record>,
    // where the last one is a word of the disk, how many have its number
    words: u32,
}

impl Sequence {
    ghost use Rattle.std.specs.Prelude.{[], true, false, List, ◌∷◌};
    ghost use Rattle.run_events.specs.declared.record.Record.{Record as Item};
    ghost use Rattle.run_events.specs.Sequence.{InOrder};

    /// A sequence of no records.
    pub fn new() -> Sequence
        ensures { InOrder [] result }
    {
        Sequence {
            last: None,
            words: 0,
        }
    }

    /// Whether a record may stand after those that were admitted: nothing stands after an End; the number never falls;
    /// among records of one number the order is Reach, Dma, Lines, Load, End, each once, but for up to 128 Dma. A record
    /// that is not admitted changes nothing.
    pub fn admit(&mut self, r: &Record) -> bool
        ensures answer { (before : List Item) → InOrder before self.old
            → result ≡ order.is_admitted before r.now }
        ensures admitted { (before : List Item) → InOrder before self.old → result ≡ true
            → InOrder (r.now ∷ before) self.new }
        ensures refused { result ≡ false → self.new ≡ self.old }
    {
        let admitted = match &self.last {
            None => true,
            Some(last) => may_follow(last, self.words, r),
        };
        if admitted {
            self.words = words_with(self.last, self.words, r);
            self.last = Some(*r);
        }
        admitted
    }
}
