//! The hub: the log and the verdicts of its readers, in one thread.
ghost use Rattle.std.specs.Prelude.{◌≡◌, ◌<◌, ◌≤◌, ◌^◌, ◌==◌, IsTrue, false, length, slice_index, IfOk};
ghost use Rattle.std.specs.List.{position_or_len};
ghost use Rattle.std.specs.Result.{result_err};
ghost use Rattle.run_events.specs.Record.{IsRecord};
ghost use Rattle.gate_core.specs.Hub.{IsHub, Gets, approved_at, empty_hub, full_at, full_of, with_append, with_close, with_take, with_verdict, verdict_at, is_cap};

use crate::{Full, Take, Verdict};
use circular_buffer::HeapCircularBuffer;
use memory_map::{CrossesThreads, NoMemory};
use run_events::Record;
use std::alloc::Global;
use std::marker::Model;

/// A log of the last records, and the verdict that each of its readers posted last, all in one thread.
#[derive(Drop)]
pub struct Hub {
    // the last `cap` records
    log: HeapCircularBuffer<Record>,
    cap: u64,
    appended: u64,
    // of each reader: how many records it has taken, and what it posted last
    taken: Vec<u64>,
    verdicts: Vec<Verdict>,
    closed: bool,
}

impl CrossesThreads for Hub {}

impl Model for Hub {
    ghost use Rattle.gate_core.specs.Hub.{HubState, IsHub, hub_state};
    ghost use Rattle.std.specs.Prelude.{◌≡◌};

    ghost Value = { HubState };

    ghost view = { λ h. hub_state h.cap h.log.items h.appended
        h.taken.items h.verdicts.items h.closed };

    ghost invariant = { λ h. (h.log.capacity ≡ h.cap)
        × IsHub (hub_state h.cap h.log.items h.appended
        h.taken.items h.verdicts.items h.closed) };
}

impl Hub {
    /// An open log that holds the last `cap` records, and reserves their places, so that an append takes no memory.
    #[tactic(auto, using(crate::proofs::HubLaws::cap_bound))]
    pub fn new(alloc: Global, cap: u32, readers: u32) -> Result<Hub, NoMemory>
        requires cap { IsTrue (is_cap cap) }
        requires some { 1 ≤ readers }
        requires few { readers ≤ 8 }
        ensures { IfOk result (λ hub. hub ≡ empty_hub cap readers) }
    {
        let count = readers as usize;
        let first = Verdict {
            approved: 0,
            refused: false,
        };
        Ok(Hub {
            log: HeapCircularBuffer::with_capacity(alloc, cap as usize)?,
            cap: u64::from(cap),
            appended: 0,
            taken: vec![in alloc; 0u64; count]?,
            verdicts: vec![in alloc; first; count]?,
            closed: false,
        })
    }

    /// Adds a record. Full comes exactly where a reader has `cap` records still to take: the least such reader is
    /// named, and nothing is changed.
    pub fn append(&mut self, item: Record) -> Result<(), Full>
        requires is_open { self.old.closed ≡ false }
        requires fits { self.old.appended < 2 ^ 62 }
        requires item { IsRecord item }
        ensures full { result_err result ≡ full_of self.old }
        ensures after { self.new ≡ with_append self.old item }
    {
        match find_full(&self.taken, self.appended, self.cap) {
            Some(full) => Err(full),
            None => {
                self.log.push_back(item);
                self.appended += 1;
                Ok(())
            }
        }
    }

    /// Takes the reader's next record, where there is one.
    #[tactic(auto, using(crate::proofs::HubLaws::stored_record))]
    pub fn take(&mut self, reader: u32) -> Take
        requires { reader < length self.old.taken }
        ensures gives { Gets self.old reader result }
        ensures after { self.new ≡ with_take self.old reader }
    {
        let index = reader as usize;
        let number = self.taken[index];
        let place = self.log.len() as u64 + number - self.appended;
        match self.log.get(place as usize) {
            Some(item) => {
                let got = *item;
                self.taken[index] = number + 1;
                Take::Got(got)
            }
            None => {
                if self.closed {
                    Take::Closed
                } else {
                    Take::Empty {
                        head: self.appended,
                    }
                }
            }
        }
    }

    /// Stores the reader's verdict in place of its last one.
    pub fn post(&mut self, reader: u32, verdict: Verdict)
        requires reader { reader < length self.old.taken }
        requires rises { approved_at self.old reader ≤ verdict.approved }
        ensures { self.new ≡ with_verdict self.old reader verdict }
    {
        self.verdicts[reader as usize] = verdict;
    }

    /// The verdict that the reader posted last. Before the first it approves nothing and refuses nothing.
    pub fn look(&self, reader: u32) -> Verdict
        requires { reader < length self.now.taken }
        ensures { result ≡ verdict_at self.now reader }
    {
        self.verdicts[reader as usize]
    }

    /// Ends the log: nothing is appended any more.
    pub fn close(&mut self)
        requires { self.old.closed ≡ false }
        ensures { self.new ≡ with_close self.old }
    {
        self.closed = true;
    }

    /// How many records were appended.
    pub fn appended(&self) -> u64
        ensures appended { result ≡ self.now.appended }
        ensures stands { IsHub self.now }
    {
        self.appended
    }

    /// How many records the reader has taken.
    pub fn taken(&self, reader: u32) -> u64
        requires { reader < length self.now.taken }
        ensures { result ≡ slice_index self.now.taken reader }
    {
        self.taken[reader as usize]
    }

    /// How many readers there are.
    pub fn readers(&self) -> u32
        ensures { result ≡ length self.now.taken }
    {
        self.taken.len() as u32
    }

    /// Whether the log was closed.
    pub fn is_closed(&self) -> bool
        ensures { result ≡ self.now.closed }
    {
        self.closed
    }
}

// The least reader that has `cap` records still to take.
fn find_full(taken: &[u64], appended: u64, cap: u64) -> Option<Full>
    requires { length taken.now ≤ 8 }
    ensures { result ≡ full_at taken.now appended cap }
{
    if appended < cap {
        return None;
    }
    let number = appended - cap;
    let reader = place_of(taken, number);
    if reader < taken.len() {
        Some(Full {
            reader: reader as u32,
            taken: number,
        })
    } else {
        None
    }
}

// The least place at which this number stands, or the length.
fn place_of(counts: &[u64], number: u64) -> usize
    ensures { result ≡ position_or_len (λ count. count == number) counts.now }
{
    for place in 0..counts.len() {
        if counts[place] == number {
            return place;
        }
    }
    counts.len()
}
