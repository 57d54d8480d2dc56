//! The lines of a script.
ghost use Rattle.std.specs.Prelude.{◌≡◌, ◌++◌, [], ◌∷◌};
ghost use Rattle.machine_model.specs.Script.{Serial};
ghost use Rattle.format_model.specs.ScriptReading.{serial_at, tick_at, latency_at, what_at, clock_at, span_in, sectors_at, entry_in, entry_at, is_blank};
ghost use Rattle.in_script.specs.What.{arrives};
ghost use Rattle.in_script.specs.Lines.{says};
ghost use Rattle.in_script.specs.Reads.{Gives};

use crate::bytes::Bytes;
use crate::fault::Broken;
use crate::hex::hex_at;
use crate::number::{number_at, number_in};
use crate::script::{Entry, Span, What};
use crate::text::{after, at_space};
use decimal_text::is_number;
use memory_map::MOST_STEPS;
use std::alloc::Global;

// The last sector of the largest disk.
const LAST_SECTOR: u32 = 32_767;

// The longest latency of the disk, in steps.
const MOST_LATENCY: u32 = 1_000_000;

// The most entries of a script.
const MOST_ENTRIES: usize = 65_536;

// The most spans of sectors of a script.
const MOST_SPANS: usize = 256;

// A line: one that says nothing, or what it says.
#[derive(Drop)]
pub(crate) enum Line {
    Blank,
    Clock(u32),
    Sectors(Span),
    At(Entry),
}

// Whether the line says nothing.
pub(crate) fn is_blank(text: &[u8]) -> bool
    ensures { result ≡ is_blank text.now }
{
    match text {
        [] => true,
        [first, ..] => *first == b'#',
    }
}

// The bytes in hexadecimal that come on the serial line, with this mark.
#[tactic(auto, unfolding(format_model::specs::ScriptReading::serial_at))]
fn serial_at(alloc: Global, text: &[u8], mark: u8) -> Result<What, Broken>
    ensures { Gives arrives result (serial_at mark text.now) }
{
    let bytes = hex_at(alloc, text)?;
    Ok(What::Serial {
        bytes: Bytes::new(bytes),
        mark,
    })
}

// The bytes of a text and a line feed, which come on the serial line without a mark.
fn text_at(alloc: Global, text: &[u8]) -> Result<What, Broken>
    ensures { Gives arrives result (Ok (Serial (text.now ++ 10 ∷ []) 0)) }
{
    let mut bytes = Vec::from_slice(alloc, text)?;
    bytes.push(b'\n')?;
    Ok(What::Serial {
        bytes: Bytes::new(bytes),
        mark: 0,
    })
}

// A rise of the timer, by its number.
#[tactic(auto, unfolding(format_model::specs::ScriptReading::tick_at))]
fn tick_at(text: &[u8]) -> Result<What, Broken>
    ensures { Gives arrives result (tick_at text.now) }
{
    let count = number_at(text, 1, u32::MAX)?;
    Ok(What::Tick { count })
}

// A latency of the disk, by its number of steps.
#[tactic(auto, unfolding(format_model::specs::ScriptReading::latency_at))]
fn latency_at(text: &[u8]) -> Result<What, Broken>
    ensures { Gives arrives result (latency_at text.now) }
{
    let steps = number_at(text, 1, MOST_LATENCY)?;
    Ok(What::Latency { steps })
}

// What arrives, by its word.
#[tactic(auto, unfolding(format_model::specs::ScriptReading::what_at))]
fn what_at(alloc: Global, text: &[u8]) -> Result<What, Broken>
    ensures { Gives arrives result (what_at text.now) }
{
    if let Some(hex) = after(text, b"serial ") {
        return serial_at(alloc, hex, 0);
    }
    if let Some(hex) = after(text, b"marked ") {
        return serial_at(alloc, hex, 1);
    }
    if let Some(rest) = after(text, b"line ") {
        return text_at(alloc, rest);
    }
    if let Some(count) = after(text, b"tick ") {
        return tick_at(count);
    }
    match after(text, b"latency ") {
        Some(steps) => latency_at(steps),
        None => Err(Broken::BadLine),
    }
}

// A clock, where one may stand.
#[tactic(auto, unfolding(format_model::specs::ScriptReading::clock_at))]
pub(crate) fn clock_at(may_stand: bool, text: &[u8]) -> Result<Line, Broken>
    ensures { Gives says result (clock_at may_stand text.now) }
{
    if !may_stand {
        return Err(Broken::BadLine);
    }
    let period = number_at(text, 1, MOST_STEPS)?;
    Ok(Line::Clock(period))
}

// The sectors from one number to another, which is no less.
#[tactic(auto, unfolding(format_model::specs::ScriptReading::span_in))]
fn span_in(left: &[u8], right: &[u8]) -> Result<Span, Broken>
    ensures { Gives (λ s. s) result (span_in left.now right.now) }
{
    let first = number_in(left, 0, LAST_SECTOR)?;
    let last = number_in(right, first, LAST_SECTOR)?;
    Ok(Span { first, last })
}

// Sectors, where they may stand, after this many others.
#[tactic(auto, unfolding(format_model::specs::ScriptReading::sectors_at))]
pub(crate) fn sectors_at(may_stand: bool, count: usize, text: &[u8]) -> Result<Line, Broken>
    ensures { Gives says result (sectors_at may_stand count text.now) }
{
    let (left, right) = at_space(text)?;
    if !(may_stand && is_number(left) && is_number(right)) {
        return Err(Broken::BadLine);
    }
    let span = span_in(left, right)?;
    if count < MOST_SPANS {
        Ok(Line::Sectors(span))
    } else {
        Err(Broken::TooMany)
    }
}

// What arrives before the step `at`, after this many entries, of which the last is at the step `last`.
#[tactic(auto, unfolding(format_model::specs::ScriptReading::entry_in))]
fn entry_in(last: u32, count: usize, at: u32, what: What) -> Result<Line, Broken>
    ensures { Gives says result (entry_in last count at (arrives what)) }
{
    if at < last {
        Err(Broken::Falling)
    } else if count < MOST_ENTRIES {
        Ok(Line::At(Entry { at, what }))
    } else {
        Err(Broken::TooMany)
    }
}

// An entry, after this many others, of which the last is at the step `last`.
#[tactic(auto, unfolding(format_model::specs::ScriptReading::entry_at))]
pub(crate) fn entry_at(alloc: Global, last: u32, count: usize, text: &[u8]) -> Result<Line, Broken>
    ensures { Gives says result (entry_at last count text.now) }
{
    let (digits, rest) = at_space(text)?;
    if !is_number(digits) {
        return Err(Broken::BadLine);
    }
    let what = what_at(alloc, rest)?;
    let at = number_in(digits, 0, MOST_STEPS)?;
    entry_in(last, count, at, what)
}
