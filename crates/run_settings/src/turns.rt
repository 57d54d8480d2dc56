//! Patterns of turns.
ghost use Rattle.std.specs.Prelude.{◌≡◌, ◌+◌, ◌<◌, ◌≤◌, ◌↔◌, IsTrue, List, [], ◌∷◌, ◌++◌, length};
ghost use Rattle.std.specs.List.{list_all, list_any};
ghost use Rattle.run_settings.specs.Patterns.{IsPattern, has_reads, is_letter, is_pattern, is_read, is_record, is_release, plain_turns, reads_below};

use crate::letter::Letter;
use std::marker::Model;

/// The most turns of a pattern.
pub const MOST_TURNS: usize = 64;

/// Turns that are taken one after another, and then anew: at most `MOST_TURNS`. They lie in the value itself, so that no
/// call takes memory.
#[derive(Drop)]
pub struct Turns {
    places: [Letter; MOST_TURNS],
    used: usize,
}

impl Model for Turns {
    ghost use Rattle.std.specs.Prelude.{List, ◌≤◌, take};
    ghost use Rattle.run_settings.specs.declared.letter.Letter.{Letter};

    ghost Value = { List Letter };

    ghost view = { λ t. take t.used t.places };

    ghost invariant = { λ t. t.used ≤ 64 };
}

// Whether the letter, where it is a follower's, names one of so many.
fn is_letter(letter: Letter, readers: u32) -> bool
    ensures { result ≡ is_letter readers letter }
{
    match letter {
        Letter::Read(reader) => reader < readers,
        Letter::Record | Letter::Release => true,
    }
}

fn is_record(letter: Letter) -> bool
    ensures { result ≡ is_record letter }
{
    match letter {
        Letter::Record => true,
        Letter::Read(_) | Letter::Release => false,
    }
}

fn is_release(letter: Letter) -> bool
    ensures { result ≡ is_release letter }
{
    match letter {
        Letter::Release => true,
        Letter::Record | Letter::Read(_) => false,
    }
}

fn is_read(letter: Letter, reader: u32) -> bool
    ensures { result ≡ is_read reader letter }
{
    match letter {
        Letter::Read(other) => other == reader,
        Letter::Record | Letter::Release => false,
    }
}

fn are_letters(turns: &[Letter], readers: u32) -> bool
    ensures { result ≡ list_all (is_letter readers) turns.now }
{
    turns.iter().all(|letter| is_letter(*letter, readers))
}

fn has_record(turns: &[Letter]) -> bool
    ensures { result ≡ list_any is_record turns.now }
{
    turns.iter().any(|letter| is_record(*letter))
}

fn has_release(turns: &[Letter]) -> bool
    ensures { result ≡ list_any is_release turns.now }
{
    turns.iter().any(|letter| is_release(*letter))
}

fn has_read(turns: &[Letter], reader: u32) -> bool
    ensures { result ≡ list_any (is_read reader) turns.now }
{
    turns.iter().any(|letter| is_read(*letter, reader))
}

// Whether each of so many followers has a turn.
fn has_reads(turns: &[Letter], readers: u32) -> bool
    ensures { result ≡ has_reads readers turns.now }
{
    for reader in 0..readers {
        if !has_read(turns, reader) {
            return false;
        }
    }
    true
}

#[tactic(auto, unfolding(crate::specs::Patterns::is_pattern))]
fn is_pattern(turns: &[Letter], readers: u32) -> bool
    ensures { result ≡ is_pattern readers turns.now }
{
    let whole = are_letters(turns, readers) && has_record(turns);
    whole && has_reads(turns, readers) && has_release(turns)
}

impl Turns {
    /// None yet.
    pub fn new() -> Turns
        ensures { result ≡ [] }
    {
        Turns {
            places: [Letter::Record; MOST_TURNS],
            used: 0,
        }
    }

    /// The recorder, each of so many followers in order, and the gate.
    pub fn plain(readers: u32) -> Turns
        requires { readers ≤ 62 }
        ensures turns { result ≡ plain_turns readers }
        ensures pattern { IsPattern readers result }
    {
        let mut turns = Turns::new();
        turns.add(Letter::Record);
        for reader in 0..readers {
            turns.add(Letter::Read(reader));
        }
        turns.add(Letter::Release);
        turns
    }

    /// Puts a turn after the others.
    pub fn add(&mut self, letter: Letter)
        requires { length self.old < 64 }
        ensures { self.new ≡ self.old ++ letter ∷ [] }
    {
        self.places[self.used] = letter;
        self.used += 1;
    }

    /// The turns in order.
    pub fn letters(&self) -> &[Letter]
        ensures turns { result.now ≡ self.now }
        ensures most { length self.now ≤ 64 }
    {
        &self.places[..self.used]
    }

    /// Whether the recorder, each of so many followers and the gate have a turn, and no other follower has.
    #[tactic(auto, using(crate::proofs::PatternLaws::tells_pattern))]
    pub fn is_pattern(&self, readers: u32) -> bool
        ensures value { result ≡ is_pattern readers self.now }
        ensures test { IsTrue result ↔ IsPattern readers self.now }
    {
        is_pattern(self.letters(), readers)
    }
}
