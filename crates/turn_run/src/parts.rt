//! The parts of a run, and a turn of each of them.
ghost use Rattle.std.specs.Prelude.{◌≡◌, ◌-◌, ◌<◌, ◌≤◌, ◌^◌, ◌&&◌, IsTrue, false, length, is_some, slice_index, take, vec_len, IfOk, IfSome, OnOk, OnErr};
ghost use Rattle.std.specs.List.{All};
ghost use Rattle.after_edge.specs.Sink.{Writes, WritesPart};
ghost use Rattle.run_events.specs.Record.{IsRecord, number};
ghost use Rattle.gate_core.specs.Core.{CoreState};
ghost use Rattle.gate_core.specs.Follow.{approvals};
ghost use Rattle.gate_core.specs.Hub.{approved_at, is_cap};
ghost use Rattle.output_gate.specs.Gate.{is_full, with_failure};
ghost use Rattle.turn_run.specs.Course.{Course, IsMarked};
ghost use Rattle.turn_run.specs.Following.{AreSame};
ghost use Rattle.turn_run.specs.Gates.{after_put, approved_in, has_room, least_approved, refusals, with_append_if, with_item, with_item_if, withheld_for, withheld_from};
ghost use Rattle.turn_run.specs.Openings.{IsCourseOf, IsOpened, followers_of};
ghost use Rattle.turn_run.specs.Runs.{HasBroken, HasReleased, IsAt, IsBesides, IsFollowed, IsFollowedRun, IsSoundRun, Lessens, LessensRead, Reads, Records};

use crate::ending::Ending;
use crate::source::Source;
use crate::{Follower, Turn, read_next};
use after_edge::Sink;
use any_machine::Recorder;
use gate_core::Hub;
use memory_map::{MOST_STEPS, NoMemory};
use output_gate::{OutputGate, ROOM, SinkFault};
use run_events::{Item, Record};
use std::alloc::Global;

/// What a turn of the recorder came to.
#[derive(Clone, Copy, Debug, PartialEq, Eq)]
pub(crate) enum Recorded {
    /// A record was appended.
    Appended,
    /// The log was closed, after its last record.
    Closed,
    /// There was no room for the record, which waits.
    Waits,
    /// The log was closed before.
    Over,
}

/// A run before its end: the recorder, the log, the followers, those of them that have to approve, and the gate.
#[derive(Drop)]
pub struct Parts<M: Recorder, F: Follower> {
    pub(crate) source: Source<M>,
    pub(crate) hub: Hub,
    pub(crate) followers: Vec<F>,
    pub(crate) required: Vec<u32>,
    pub(crate) gate: OutputGate,
    // the end that was appended
    pub(crate) end: Option<Ending>,
}

impl<M: Recorder, F: Follower> Parts<M, F> {
    /// A run before its first turn, of followers each of which is the reader of its place, those of them that have to
    /// approve, and a log that holds the last `cap` records. It reserves the places of log and gate, and no later call
    /// takes memory.
    pub fn new(
        alloc: Global,
        recorder: M,
        followers: Vec<F>,
        required: Vec<u32>,
        cap: u32,
    ) -> Result<Parts<M, F>, NoMemory>
        requires cap { IsTrue (is_cap cap) }
        requires some { 1 ≤ vec_len followers }
        requires few { vec_len followers ≤ 8 }
        requires there { All (λ reader. reader < vec_len followers) required.items }
        ensures opened { IfOk result (λ parts. (c : Course)
            → IsCourseOf M.recording F.following c recorder followers.items required.items cap
            → IsOpened M.recording F.following c parts) }
        ensures followers { IfOk result (λ parts. followers_of parts ≡ followers.items) }
    {
        let readers = followers.len() as u32;
        Ok(Parts {
            source: Source::new(recorder),
            hub: Hub::new(alloc, cap, readers)?,
            followers,
            required,
            gate: OutputGate::new(alloc)?,
            end: None,
        })
    }

    // A turn of the recorder: its next record is appended where the log has room, and the gate for its byte; else it
    // waits. After the last record the log is closed.
    pub(crate) fn append_next(&mut self) -> Recorded
        requires { IsSoundRun M.recording F.following self.old }
        ensures records { (c : Course) (core : CoreState)
            → IsAt M.recording F.following c core self.old
            → Records M.recording F.following c core result self.old self.new }
        ensures lessens { Lessens M.recording F.following result self.old self.new }
        ensures made { AreSame F.following (followers_of self.old) (followers_of self.new) }
    {
        if self.hub.is_closed() {
            return Recorded::Over;
        }
        let Some(item) = self.source.next() else {
            self.hub.close();
            return Recorded::Closed;
        };
        if !place(&mut self.hub, &mut self.gate, item) {
            self.source.put_back(item);
            return Recorded::Waits;
        }
        self.end = Ending::of(item.item);
        Recorded::Appended
    }

    // A turn of the follower with this number.
    pub(crate) fn read(&mut self, reader: u32) -> Turn
        requires followed { IsFollowedRun F.following self.old }
        requires there { reader < length self.old.followers.items }
        ensures reads { (c : Course) (core : CoreState)
            → IsFollowed F.following c core self.old
            → Reads F.following c core reader result self.old self.new }
        ensures besides { IsBesides self.old self.new }
        ensures lessens { LessensRead result self.old self.new }
        ensures made { AreSame F.following (followers_of self.old) (followers_of self.new) }
    {
        let follower = &mut self.followers[reader as usize];
        read_next(follower, reader, &mut self.hub)
    }

    // A turn of the gate: it releases below what each required follower approves, and withholds from there on where one
    // refuses.
    pub(crate) fn release<O: Sink>(&mut self, out: &mut O) -> Result<(), SinkFault>
        requires { IsSoundRun M.recording F.following self.old }
        ensures ok { OnOk result ((c : Course) (core : CoreState)
            → IsAt M.recording F.following c core self.old
            → HasReleased M.recording F.following c core self.old self.new
            O.told out.old out.new) }
        ensures err { OnErr result ((c : Course) (core : CoreState)
            → IsAt M.recording F.following c core self.old
            → HasBroken M.recording F.following c core self.old self.new
            O.told out.old out.new) }
        ensures made { AreSame F.following (followers_of self.old) (followers_of self.new) }
    {
        match let_out(&mut self.gate, &self.hub, &self.required, out) {
            Ok(()) => Ok(()),
            Err(fault) => Err(fault),
        }
    }
}

// Appends the record of an item to the log, and lets its byte wait in the gate, where both have room; else neither is
// changed.
fn place(hub: &mut Hub, gate: &mut OutputGate, item: Item) -> bool
    requires is_open { hub.old.closed ≡ false }
    requires fits { hub.old.appended < 2 ^ 62 }
    requires item { IsRecord item.item }
    requires sound { gate.old.failed ≡ false }
    requires rises { IfSome item.byte (λ _. gate.old.next ≤ number item.item - 1) }
    requires marks { IsMarked item }
    ensures room { result ≡ has_room hub.old gate.old item }
    ensures log { hub.new ≡ with_append_if result hub.old item.item }
    ensures gate { gate.new ≡ with_item_if result gate.old item }
{
    if is_crowded(gate, item) {
        return false;
    }
    match hub.append(item.item) {
        Ok(()) => {
            issue(gate, item);
            true
        }
        Err(_) => false,
    }
}

// Whether the gate has no place for the byte of an item.
fn is_crowded(gate: &OutputGate, item: Item) -> bool
    ensures { result ≡ (is_some item.byte && is_full gate.now) }
{
    item.byte.is_some() && gate.waiting() as usize == ROOM
}

// Lets the byte of an item wait.
fn issue(gate: &mut OutputGate, item: Item)
    requires sound { gate.old.failed ≡ false }
    requires room { (is_some item.byte && is_full gate.old) ≡ false }
    requires rises { IfSome item.byte (λ _. gate.old.next ≤ number item.item - 1) }
    requires marks { IsMarked item }
    ensures { gate.new ≡ with_item gate.old item }
{
    if let (Some(byte), Record::Reach { step }) = (item.byte, item.item) {
        match gate.issue(step - 1, byte) {
            Ok(()) => {}
            Err(_) => unreachable!(),
        }
    }
}

// Puts the waiting bytes whose steps all of these readers approve, and then withholds all from each step on that one of
// them refuses.
fn let_out<O: Sink>(
    gate: &mut OutputGate,
    hub: &Hub,
    required: &[u32],
    out: &mut O,
) -> Result<(), SinkFault>
    requires there { All (λ reader. reader < length hub.now.taken) required.now }
    requires sound { gate.old.failed ≡ false }
    requires passed { All (λ reader.
        (after_put hub.now required.now gate.old).passed ≤ approved_at hub.now reader)
        required.now }
    ensures put { OnOk result (Writes O.told out.old out.new
        (take (approved_in hub.now required.now gate.old) gate.old.bytes)) }
    ensures part { OnErr result (WritesPart O.told out.old out.new
        (take (approved_in hub.now required.now gate.old) gate.old.bytes)) }
    ensures some { OnErr result (1 ≤ approved_in hub.now required.now gate.old) }
    ensures withheld { OnOk result (gate.new
        ≡ withheld_from (refusals hub.now required.now)
        (after_put hub.now required.now gate.old)) }
    ensures failed { OnErr result (gate.new
        ≡ with_failure gate.old (approved_in hub.now required.now gate.old)) }
{
    match put_approved(gate, hub, required, out) {
        Ok(()) => {}
        Err(fault) => return Err(fault),
    }
    withhold_refused(gate, hub, required);
    Ok(())
}

// Puts the waiting bytes whose steps all of these readers approve. Where none waits no reader is asked.
fn put_approved<O: Sink>(
    gate: &mut OutputGate,
    hub: &Hub,
    required: &[u32],
    out: &mut O,
) -> Result<(), SinkFault>
    requires there { All (λ reader. reader < length hub.now.taken) required.now }
    requires sound { gate.old.failed ≡ false }
    ensures put { OnOk result (Writes O.told out.old out.new
        (take (approved_in hub.now required.now gate.old) gate.old.bytes)) }
    ensures part { OnErr result (WritesPart O.told out.old out.new
        (take (approved_in hub.now required.now gate.old) gate.old.bytes)) }
    ensures some { OnErr result (1 ≤ approved_in hub.now required.now gate.old) }
    ensures after { OnOk result (gate.new ≡ after_put hub.now required.now gate.old) }
    ensures failed { OnErr result (gate.new
        ≡ with_failure gate.old (approved_in hub.now required.now gate.old)) }
{
    if gate.waiting() == 0 {
        return Ok(());
    }
    let below = least_approved(hub, required);
    match gate.release(below, out) {
        Ok(_) => Ok(()),
        Err(fault) => Err(fault),
    }
}

// Below which step all of these readers approve; where there are none, all.
fn least_approved(hub: &Hub, required: &[u32]) -> u32
    requires { All (λ reader. reader < length hub.now.taken) required.now }
    ensures { result ≡ least_approved (approvals hub.now.verdicts) required.now }
{
    let mut least = MOST_STEPS;
    for reader in required {
        least = hub.look(*reader).approved.min(least);
    }
    least
}

// Withholds all from the step on that one of these readers refuses.
fn withhold_refused(gate: &mut OutputGate, hub: &Hub, required: &[u32])
    requires there { All (λ reader. reader < length hub.now.taken) required.now }
    requires sound { gate.old.failed ≡ false }
    requires passed { All (λ reader. gate.old.passed ≤ approved_at hub.now reader) required.now }
    ensures { gate.new ≡ withheld_from (refusals hub.now required.now) gate.old }
{
    for reader in required {
        withhold_for(gate, hub, *reader);
    }
}

// Withholds all from the step on that this reader refuses, where it refuses one.
fn withhold_for(gate: &mut OutputGate, hub: &Hub, reader: u32)
    requires there { reader < length hub.now.taken }
    requires sound { gate.old.failed ≡ false }
    requires passed { gate.old.passed ≤ approved_at hub.now reader }
    ensures { gate.new ≡ withheld_for hub.now reader gate.old }
{
    let verdict = hub.look(reader);
    if verdict.refused {
        gate.withhold(verdict.approved);
    }
}
