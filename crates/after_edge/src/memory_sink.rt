//! A sink in memory, with failures that are planned.
ghost use Rattle.std.specs.Prelude.{◌≡◌, ◌≤◌, ℕ, List, length, vec_len, vec_capacity, is_err, IfOk, OnOk, OnErr};
ghost use Rattle.after_edge.specs.Sink.{Writes, WritesPart};
ghost use Rattle.after_edge.specs.MemorySink.{SinkState, in_memory, empty_sink, planned_limit, part_taken, put_fails, sink_after};

use crate::reserved::append_reserved;
use crate::{Failed, Sink};
use memory_map::NoMemory;
use std::alloc::Global;
use std::marker::Model;

/// A sink that keeps its bytes in memory, and fails where it is told to.
#[derive(Drop)]
pub struct MemorySink {
    bytes: Vec<u8>,
    capacity: usize,
    // the numbers of the puts that are to fail, each with how many bytes it takes before
    plan: Vec<(u64, usize)>,
    // how many puts there were, and how many of them failed
    puts: u64,
    faults: u64,
}

impl Model for MemorySink {
    ghost Value = { SinkState };

    ghost view = { λ s. record {
      bytes = s.bytes.items;
      capacity = s.capacity;
      plan = s.plan.items;
      puts = s.puts;
      faults = s.faults;
    } };

    ghost invariant = { λ s. (vec_len s.bytes ≤ s.capacity) × (s.capacity ≤ vec_capacity s.bytes) };
}

impl MemorySink {
    /// An empty sink that takes at most `capacity` bytes, and reserves them, so that a put takes no memory.
    /// Each pair of `fails` names a put, counted from 1, and after how many bytes it fails.
    /// Of two pairs with one number the first decides.
    pub fn new(
        alloc: Global,
        capacity: usize,
        fails: Vec<(u64, usize)>,
    ) -> Result<MemorySink, NoMemory>
        ensures { IfOk result (λ sink. sink ≡ empty_sink capacity fails.items) }
    {
        Ok(MemorySink {
            bytes: Vec::with_capacity(alloc, capacity)?,
            capacity,
            plan: fails,
            puts: 0,
            faults: 0,
        })
    }

    /// All bytes that were added.
    pub fn bytes(&self) -> &[u8]
        ensures { result.now ≡ self.now.bytes }
    {
        &self.bytes
    }
}

// After how many bytes the put of this number is to fail.
fn limit_of(plan: &[(u64, usize)], number: u64) -> Option<usize>
    ensures { result ≡ planned_limit plan.now number }
{
    plan.iter().find(|pair| pair.0 == number).map(|pair| pair.1)
}

// What of the piece is added.
fn part_of(piece: &[u8], limit: Option<usize>, room: usize) -> &[u8]
    ensures part { result.now ≡ part_taken limit room piece.now }
    ensures fits { length result.now ≤ room }
{
    let asked = limit.unwrap_or(piece.len()).min(room);
    &piece[..asked.min(piece.len())]
}

impl Sink for MemorySink {
    ghost told = { in_memory };

    /// Fails exactly where a pair names this put or the piece passes the capacity.
    /// The first pair's number of bytes was then added, but no more than the piece has and than fits.
    fn put(&mut self, piece: &[u8]) -> Result<(), Failed>
        ensures ok { OnOk result (Writes in_memory self.old self.new piece.now) }
        ensures err { OnErr result (WritesPart in_memory self.old self.new piece.now) }
        ensures fails { is_err result ≡ put_fails self.old piece.now }
        ensures after { self.new ≡ sink_after self.old piece.now }
    {
        self.puts = self.puts.saturating_add(1);
        let limit = limit_of(&self.plan, self.puts);
        let room = self.capacity - self.bytes.len();
        append_reserved(&mut self.bytes, part_of(piece, limit, room));
        if limit.is_none() && piece.len() <= room {
            return Ok(());
        }
        self.faults = self.faults.saturating_add(1);
        Err(Failed)
    }
}
