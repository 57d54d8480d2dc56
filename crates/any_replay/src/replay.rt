//! The replay, fed record by record.
use crate::fault::fault;
use crate::running::run_to;
use crate::standing::{Standing, apply};
use any_machine::Hart;
use run_events::{Diverged, Record, Sequence, Watcher, Why, number};

/// A hart without devices that is fed a list of records. Contracts see the list by `Replays`.
#[derive(Drop)]
pub struct Replay<H> {
    standing: Standing<H>,
    order: Sequence,
    diverged: Option<Diverged>,
    takes: u64,
}

impl<H: Hart> Replay<H> {
    ghost use Rattle.std.specs.Prelude.{◌≡◌, ◌*◌, [], List, IsTrue, is_some};
    ghost use Rattle.run_events.specs.declared.record.Record.{Record as Item};
    ghost use Rattle.run_events.specs.Record.{IsRecord};
    ghost use Rattle.any_machine.specs.Replay.{outcome};
    ghost use Rattle.any_replay.specs.Replays.{Replays, KeepsReplaying, KeepsShowing, hart_in, fault_in, takes_in, state_in};
    ghost use Rattle.any_replay.specs.Taking.{JudgesAll, ShowsAll, answer_of, takes_after};

    /// A replay that was fed nothing, of a hart that has done no step.
    pub fn new(hart: H) -> Replay<H>
        requires { H.done hart ≡ 0 }
        ensures replays { Replays H.machine H.done H.ram_size hart [] result }
        ensures takes { takes_in result ≡ 0 }
    {
        Replay {
            standing: Standing {
                hart,
                lines: 0,
                load: None,
                power: None,
            },
            order: Sequence::new(),
            diverged: None,
            takes: 0,
        }
    }

    // Takes a record, where none had a fault before, and answers its fault.
    fn judge<W: Watcher>(&mut self, item: &Record, seen: &mut W) -> Option<Diverged>
        requires item { IsRecord item.now }
        requires size { H.ram_size (hart_in self.old) ≡ 1024 * W.ram_kib seen.old }
        ensures judges { JudgesAll H.machine H.done H.ram_size item.now self.old self.new result }
        ensures shown { ShowsAll H.machine H.done H.ram_size item.now self.old
            (W.has_seen seen.old) (W.has_seen seen.new) }
        ensures ram { H.ram_size (hart_in self.new) ≡ H.ram_size (hart_in self.old) }
        ensures diverged { fault_in self.new ≡ fault_in self.old }
        ensures takes { takes_in self.new ≡ takes_in self.old }
        ensures size { W.ram_kib seen.new ≡ W.ram_kib seen.old }
        ensures made { W.make seen.new ≡ W.make seen.old }
    {
        let number = number(item);
        if !self.order.admit(item) {
            return Some(Diverged {
                step: number,
                why: Why::StepFalls,
            });
        }
        run_to(&mut self.standing, number, seen);
        match fault(&self.standing, item) {
            Some(fault) => Some(fault),
            None => {
                apply(&mut self.standing, item, seen);
                None
            }
        }
    }

    /// Takes the next record: does the steps below its number, as far as the list fits, and shows each event; then it
    /// keeps the lines or the value that the record brings, or has its word written and shows that. It answers the first
    /// fault of the list so far, if there is one. After a fault it answers the same at every call, does nothing and shows
    /// nothing. It takes no memory.
    pub fn take<W: Watcher>(&mut self, item: &Record, seen: &mut W) -> Result<(), Diverged>
        requires item { IsRecord item.now }
        requires size { H.ram_size (hart_in self.old) ≡ 1024 * W.ram_kib seen.old }
        ensures answer { result ≡ answer_of (fault_in self.new) }
        ensures replays { KeepsReplaying H.machine H.done H.ram_size item.now self.old self.new }
        ensures shown { KeepsShowing H.machine H.done H.ram_size item.now self.old
            (W.has_seen seen.old) (W.has_seen seen.new) }
        ensures diverged { IsTrue (is_some (fault_in self.old)) → self.new ≡ self.old }
        ensures still { IsTrue (is_some (fault_in self.old)) → seen.new ≡ seen.old }
        ensures takes { takes_in self.new ≡ takes_after (takes_in self.old) (fault_in self.new) }
        ensures ram { H.ram_size (hart_in self.new) ≡ H.ram_size (hart_in self.old) }
        ensures size { W.ram_kib seen.new ≡ W.ram_kib seen.old }
        ensures made { W.make seen.new ≡ W.make seen.old }
    {
        if let Some(diverged) = self.diverged {
            return Err(diverged);
        }
        if let Some(diverged) = self.judge(item, seen) {
            self.diverged = Some(diverged);
            return Err(diverged);
        }
        self.takes = self.takes.saturating_add(1);
        Ok(())
    }

    /// The number of steps done.
    pub fn reach(&self) -> u32
        ensures done { result ≡ H.done (hart_in self.now) }
        ensures executed { (start : H) (items : List Item)
            → Replays H.machine H.done H.ram_size start items self.now
            → result ≡ (outcome H.machine start items).done }
    {
        self.standing.hart.steps()
    }

    /// The hart.
    pub fn hart(&self) -> &H
        ensures hart { result.now ≡ hart_in self.now }
        ensures state { (start : H) (items : List Item)
            → Replays H.machine H.done H.ram_size start items self.now
            → result.now ≡ state_in H.machine start (outcome H.machine start items) }
    {
        &self.standing.hart
    }

    /// The number of records accepted, which stops at 2^64 - 1.
    pub fn takes(&self) -> u64
        ensures { result ≡ takes_in self.now }
    {
        self.takes
    }
}
