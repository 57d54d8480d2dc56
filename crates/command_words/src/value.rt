//! The values of options.
ghost use Rattle.std.specs.Prelude.{◌≡◌, ◌==◌, ◌∷◌, IsTrue, List, length, position, option_copied};
ghost use Rattle.command_words.specs.Values.{best_in, is_option, is_plain, is_value, kind_named, kinds_in, letter_in, log_in, meets, parts_after, parts_of, ram_in, required_in, seed_in, size_in, steps_in, threads_in, turns_in};

use crate::number::number_in;
use crate::table::Setting;
use memory_map::{LEAST_RAM_KIB, MOST_RAM_KIB, MOST_STEPS};
use run_events::Kind;
use run_settings::{Kinds, Letter, MOST_TURNS, Turns};

/// The fewest places that a log has.
pub const LEAST_LOG: u32 = 16;

/// The most places that a log has.
pub const MOST_LOG: u32 = 65_536;

/// The most threads.
pub const MOST_THREADS: u32 = 8;

/// The most parts of a guest that is made.
pub const MOST_PARTS: u32 = 100_000;

// Whether a word may be a name or a value: it is not empty, and does not begin with a dash.
pub(crate) fn is_plain(word: &str) -> bool
    ensures { result ≡ is_plain word.now }
{
    match word.as_bytes() {
        [] => false,
        [first, ..] => *first != b'-',
    }
}

// Whether a word stands for an option.
pub(crate) fn is_option(word: &str) -> bool
    ensures { result ≡ is_option word.now }
{
    match word.as_bytes() {
        [first, second, ..] => *first == b'-' && *second == b'-',
        _ => false,
    }
}

// Whether a mode is best effort; none where the text is no mode.
#[tactic(auto, unfolding(crate::specs::Values::best_in))]
pub(crate) fn best_in(text: &str) -> Option<bool>
    ensures { result ≡ best_in text.now }
{
    if text == "sync" {
        Some(false)
    } else if text == "best" {
        Some(true)
    } else {
        None
    }
}

// The size of RAM in KiB.
pub(crate) fn ram_in(text: &str) -> Option<u32>
    ensures { result ≡ ram_in text.now }
{
    number_in(text, LEAST_RAM_KIB, MOST_RAM_KIB)
}

// The most steps of a run.
pub(crate) fn steps_in(text: &str) -> Option<u32>
    ensures { result ≡ steps_in text.now }
{
    number_in(text, 1, MOST_STEPS)
}

// How many places a log has: a power of two.
#[tactic(auto, unfolding(crate::specs::Values::log_in))]
pub(crate) fn log_in(text: &str) -> Option<u32>
    ensures { result ≡ log_in text.now }
{
    match number_in(text, LEAST_LOG, MOST_LOG) {
        Some(places) if places.is_power_of_two() => Some(places),
        _ => None,
    }
}

// How many threads.
pub(crate) fn threads_in(text: &str) -> Option<u32>
    ensures { result ≡ threads_in text.now }
{
    number_in(text, 0, MOST_THREADS)
}

// The number that a guest is made from.
pub(crate) fn seed_in(text: &str) -> Option<u32>
    ensures { result ≡ seed_in text.now }
{
    number_in(text, 0, u32::MAX)
}

// How many parts a made guest has.
pub(crate) fn size_in(text: &str) -> Option<u32>
    ensures { result ≡ size_in text.now }
{
    number_in(text, 1, MOST_PARTS)
}

// The analysis of this name.
#[tactic(auto, unfolding(crate::specs::Values::kind_named, analysis_model::specs::Report::kind_name))]
fn kind_named(text: &[u8]) -> Option<Kind>
    ensures { result ≡ kind_named text.now }
{
    if text == b"heap".as_slice() {
        Some(Kind::Heap)
    } else if text == b"taint".as_slice() {
        Some(Kind::Taint)
    } else if text == b"calls".as_slice() {
        Some(Kind::Calls)
    } else if text == b"cover".as_slice() {
        Some(Kind::Cover)
    } else if text == b"locks".as_slice() {
        Some(Kind::Locks)
    } else {
        None
    }
}

// The place of the first comma.
fn comma_in(text: &[u8]) -> Option<usize>
    ensures { result ≡ position (λ b. b == 44) text.now }
{
    text.iter().position(|byte| *byte == b',')
}

// What stands before the first comma, and after it, where there is one.
fn first_part(text: &[u8]) -> (&[u8], Option<&[u8]>)
    ensures { parts_of text.now ≡ result.0.now ∷ parts_after (option_copied result.1) }
{
    match comma_in(text) {
        Some(at) => (&text[..at], Some(&text[at + 1..])),
        None => (text, None),
    }
}

// Names of analyses that are parted by commas, each once.
fn kinds_of(text: &[u8]) -> Option<Kinds>
    ensures { result ≡ kinds_in text.now }
{
    let mut kinds = Kinds::new();
    let mut rest = Some(text);
    while let Some(texts) = rest {
        let (name, after) = first_part(texts);
        let kind = match kind_named(name) {
            Some(kind) => kind,
            None => return None,
        };
        if kinds.contains(kind) {
            return None;
        }
        kinds.add(kind);
        rest = after;
    }
    Some(kinds)
}

// The analyses that a text names.
pub(crate) fn kinds_in(text: &str) -> Option<Kinds>
    ensures { result ≡ kinds_in text.now }
{
    kinds_of(text.as_bytes())
}

// Such names, or the word `none`.
#[tactic(auto, unfolding(crate::specs::Values::required_in))]
pub(crate) fn required_in(text: &str) -> Option<Kinds>
    ensures { result ≡ required_in text.now }
{
    if text == "none" {
        Some(Kinds::new())
    } else {
        kinds_in(text)
    }
}

// Whose turn a byte names.
#[tactic(auto, unfolding(crate::specs::Values::letter_in))]
fn letter_in(byte: u8) -> Option<Letter>
    ensures { result ≡ letter_in byte }
{
    if byte == b'a' {
        Some(Letter::Record)
    } else if byte == b'r' {
        Some(Letter::Release)
    } else if byte.is_ascii_digit() {
        Some(Letter::Read(u32::from(byte - b'0')))
    } else {
        None
    }
}

// The turns of 1 to `MOST_TURNS` letters.
fn turns_of(text: &[u8]) -> Option<Turns>
    ensures { result ≡ turns_in text.now }
{
    if text.is_empty() || text.len() > MOST_TURNS {
        return None;
    }
    let mut turns = Turns::new();
    for byte in text {
        match letter_in(*byte) {
            Some(letter) => turns.add(letter),
            None => return None,
        }
    }
    Some(turns)
}

// The turns that a text names, a letter each.
pub(crate) fn turns_in(text: &str) -> Option<Turns>
    ensures { result ≡ turns_in text.now }
{
    turns_of(text.as_bytes())
}

// Whether a text is in the range of an option.
#[tactic(auto, unfolding(crate::specs::Values::meets))]
fn meets(setting: Setting, value: &str) -> bool
    ensures { result ≡ meets setting value.now }
{
    match setting {
        Setting::Disk => true,
        Setting::Mode => best_in(value).is_some(),
        Setting::With => kinds_in(value).is_some(),
        Setting::Require => required_in(value).is_some(),
        Setting::Ram => ram_in(value).is_some(),
        Setting::Steps => steps_in(value).is_some(),
        Setting::Log => log_in(value).is_some(),
        Setting::Threads => threads_in(value).is_some(),
        Setting::Turns => turns_in(value).is_some(),
    }
}

// Whether a word may be the value of an option.
pub(crate) fn is_value(setting: Setting, value: &str) -> bool
    ensures { result ≡ is_value setting value.now }
{
    is_plain(value) && meets(setting, value)
}
