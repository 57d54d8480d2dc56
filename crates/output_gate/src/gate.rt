//! The gate: bytes that wait for their steps.
ghost use Rattle.memory_map.specs.declared.TheConstants.{MOST_STEPS};
ghost use Rattle.std.specs.Prelude.{◌≡◌, ◌+◌, ◌<◌, ◌≤◌, false, length, take, drop, is_err, IfOk, OnOk, OnErr};
ghost use Rattle.after_edge.specs.Sink.{Writes, WritesPart};
ghost use Rattle.circular_buffer.specs.Buffer.{buffer};
ghost use Rattle.output_gate.specs.declared.gate.TheConstants.{ROOM};
ghost use Rattle.output_gate.specs.Gate.{Climbs, passed_after, count_below, empty_gate, is_full, is_withheld, first_withheld, with_failure, with_issue, with_release, with_withheld};

use after_edge::{Failed, Sink};
use circular_buffer::HeapCircularBuffer;
use memory_map::{CrossesThreads, NoMemory};
use std::alloc::Global;
use std::marker::Model;

/// As many bytes wait as may wait.
#[derive(Clone, Copy, Debug, PartialEq, Eq)]
pub struct GateFull;

/// A put of the output failed.
#[derive(Clone, Copy, Debug, PartialEq, Eq)]
pub struct SinkFault;

/// The most bytes that may wait.
pub const ROOM: usize = 4096;

/// The bytes of a guest's output, each with its step, which wait until their steps may be shown.
#[derive(Drop)]
pub struct OutputGate {
    steps: HeapCircularBuffer<u32>,
    bytes: HeapCircularBuffer<u8>,
    issued: u32,
    released: u32,
    withheld: u32,
    next: u32,
    passed: u32,
    from: Option<u32>,
    failed: bool,
}

impl CrossesThreads for OutputGate {}

impl Model for OutputGate {
    ghost use Rattle.output_gate.specs.declared.gate.TheConstants.{ROOM};
    ghost use Rattle.output_gate.specs.Gate.{GateState, IsGate};
    ghost use Rattle.std.specs.Prelude.{◌≡◌};

    ghost Value = { GateState };

    ghost view = { λ g. record {
      steps = g.steps.items;
      bytes = g.bytes.items;
      issued = g.issued;
      released = g.released;
      withheld = g.withheld;
      next = g.next;
      passed = g.passed;
      from = g.from;
      failed = g.failed;
    } };

    ghost invariant = { λ g. (g.steps.capacity ≡ ROOM)
        × (g.bytes.capacity ≡ ROOM)
        × IsGate (record {
          steps = g.steps.items;
          bytes = g.bytes.items;
          issued = g.issued;
          released = g.released;
          withheld = g.withheld;
          next = g.next;
          passed = g.passed;
          from = g.from;
          failed = g.failed;
        }) };
}

impl OutputGate {
    /// A gate to which nothing was issued. It reserves the places of 4,096 waiting bytes, and no other call takes memory.
    pub fn new(alloc: Global) -> Result<OutputGate, NoMemory>
        ensures { IfOk result (λ gate. gate ≡ empty_gate) }
    {
        Ok(OutputGate {
            steps: HeapCircularBuffer::with_capacity(alloc, ROOM)?,
            bytes: HeapCircularBuffer::with_capacity(alloc, ROOM)?,
            issued: 0,
            released: 0,
            withheld: 0,
            next: 0,
            passed: 0,
            from: None,
            failed: false,
        })
    }

    /// Lets the byte of a step wait, or, where that step is withheld, counts it as withheld. The steps rise. GateFull
    /// comes exactly where 4,096 bytes wait, and nothing is changed then.
    pub fn issue(&mut self, step: u32, byte: u8) -> Result<(), GateFull>
        requires sound { self.old.failed ≡ false }
        requires rises { self.old.next ≤ step }
        requires within { step < MOST_STEPS }
        ensures full { is_err result ≡ is_full self.old }
        ensures after { self.new ≡ with_issue self.old step byte }
    {
        if self.steps.is_full() {
            return Err(GateFull);
        }
        self.issued += 1;
        self.next = step + 1;
        if is_withheld(self.from, step) {
            self.withheld += 1;
            return Ok(());
        }
        self.steps.push_back(step);
        self.bytes.push_back(byte);
        Ok(())
    }

    /// Puts the waiting bytes whose steps are below this one, at most 4,096, in order, and answers how many they are. It
    /// leaves the sink alone where there are none. After a put that failed the gate is failed: some prefix of them went
    /// out, all of them still count as waiting, and only the calls that tell numbers may follow.
    pub fn release<O: Sink>(&mut self, below: u32, out: &mut O) -> Result<u32, SinkFault>
        requires sound { self.old.failed ≡ false }
        ensures count { IfOk result (λ count. count ≡ count_below below self.old.steps) }
        ensures ok { OnOk result (Writes O.told out.old out.new
            (take (count_below below self.old.steps) self.old.bytes)) }
        ensures err { OnErr result (WritesPart O.told out.old out.new
            (take (count_below below self.old.steps) self.old.bytes)) }
        ensures some { OnErr result (1 ≤ count_below below self.old.steps) }
        ensures none { count_below below self.old.steps ≡ 0 → out.new ≡ out.old }
        ensures released { OnOk result (self.new
            ≡ with_release self.old (count_below below self.old.steps)) }
        ensures failed { OnErr result (self.new
            ≡ with_failure self.old (count_below below self.old.steps)) }
    {
        let count = count_below(below, &self.steps);
        if count == 0 {
            return Ok(0);
        }
        self.passed = end_of(self.passed, &self.steps, count);
        match put_front(&mut self.bytes, count, out) {
            Ok(()) => {
                drop_front(&mut self.steps, count);
                drop_front(&mut self.bytes, count);
                self.released += count as u32;
                Ok(count as u32)
            }
            Err(Failed) => {
                self.failed = true;
                Err(SinkFault)
            }
        }
    }

    /// Drops the waiting bytes of the steps from this one on, and withholds each later one of them. No byte of such a
    /// step was handed to a put.
    pub fn withhold(&mut self, from: u32)
        requires sound { self.old.failed ≡ false }
        requires passed { self.old.passed ≤ from }
        ensures { self.new ≡ with_withheld self.old from }
    {
        let kept = count_below(from, &self.steps);
        self.withheld += (self.steps.len() - kept) as u32;
        self.steps.truncate_back(kept);
        self.bytes.truncate_back(kept);
        self.from = Some(first_withheld(self.from, from));
    }

    /// How many bytes were issued: as many as are released, wait and are withheld together.
    pub fn issued(&self) -> u32
        ensures issued { result ≡ self.now.issued }
        ensures counted { result ≡ self.now.released + length self.now.steps + self.now.withheld }
    {
        self.issued
    }

    /// How many bytes went out by puts that did not fail.
    pub fn released(&self) -> u32
        ensures { result ≡ self.now.released }
    {
        self.released
    }

    /// How many bytes wait. After a put that failed those of its piece are among them.
    pub fn waiting(&self) -> u32
        ensures waiting { result ≡ length self.now.steps }
        ensures few { result ≤ ROOM }
    {
        self.steps.len() as u32
    }

    /// One more than the step of the last byte that was handed to a put; 0 where there was none.
    pub fn passed(&self) -> u32
        ensures { result ≡ self.now.passed }
    {
        self.passed
    }

    /// Whether a put has failed.
    pub fn failed(&self) -> bool
        ensures { result ≡ self.now.failed }
    {
        self.failed
    }
}

// Whether the byte of a step is withheld.
fn is_withheld(from: Option<u32>, step: u32) -> bool
    ensures { result ≡ is_withheld from step }
{
    match from {
        Some(first) => first <= step,
        None => false,
    }
}

// The lesser of the step from which on all was withheld so far, and this one.
fn first_withheld(before: Option<u32>, from: u32) -> u32
    ensures { result ≡ first_withheld before from }
{
    match before {
        Some(first) => first.min(from),
        None => from,
    }
}

// How many of the steps are below this one: as they rise, the place of the first that is not.
fn count_below(below: u32, steps: &HeapCircularBuffer<u32>) -> usize
    requires { Climbs 0 steps.now.items MOST_STEPS }
    ensures count { result ≡ count_below below steps.now.items }
    ensures within { result ≤ length steps.now.items }
{
    for place in 0..steps.len() {
        match steps.get(place) {
            Some(step) if *step < below => {}
            _ => return place,
        }
    }
    steps.len()
}

// One more than the last of the first steps, or what it was before them.
fn end_of(before: u32, steps: &HeapCircularBuffer<u32>, count: usize) -> u32
    requires climbs { Climbs 0 steps.now.items MOST_STEPS }
    requires within { count ≤ length steps.now.items }
    ensures { result ≡ passed_after before (take count steps.now.items) }
{
    if count == 0 {
        return before;
    }
    match steps.get(count - 1) {
        Some(step) => *step + 1,
        None => before,
    }
}

// Puts the first bytes in one piece.
fn put_front<O: Sink>(
    bytes: &mut HeapCircularBuffer<u8>,
    count: usize,
    out: &mut O,
) -> Result<(), Failed>
    requires { count ≤ length bytes.old.items }
    ensures same { bytes.new ≡ bytes.old }
    ensures ok { OnOk result (Writes O.told out.old out.new (take count bytes.old.items)) }
    ensures err { OnErr result (WritesPart O.told out.old out.new (take count bytes.old.items)) }
{
    let whole: &[u8] = bytes.make_contiguous();
    out.put(&whole[..count])
}

// Drops the first items.
fn drop_front<T: Drop>(items: &mut HeapCircularBuffer<T>, count: usize)
    requires { count ≤ length items.old.items }
    ensures { items.new ≡ buffer (drop count items.old.items) items.old.capacity }
{
    items.truncate_front(items.len() - count);
}
