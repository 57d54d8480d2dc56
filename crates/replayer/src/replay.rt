//! The replay of a guest, fed record by record.
use crate::Diverged;
use elf_image::Image;
use memory_map::{CrossesThreads, NoMemory};
use run_events::{Record, Watcher};
use rv_cpu::Cpu;
use std::alloc::Global;

/// A hart without devices that is fed a list of records. Contracts see the list by `Replays`.
#[derive(Drop)]
pub struct Replay {
    fed: any_replay::Replay<Cpu>,
}

impl CrossesThreads for Replay {}

impl Replay {
    ghost use Rattle.memory_map.specs.declared.TheConstants.{GRAIN, LEAST_RAM_KIB, MOST_RAM_KIB};
    ghost use Rattle.std.specs.Prelude.{◌≡◌, ◌*◌, ◌%◌, ◌≤◌, ◌++◌, [], ◌∷◌, List, IfOk, IsTrue, is_some};
    ghost use Rattle.run_events.specs.declared.event.Event.{Event as Shown};
    ghost use Rattle.run_events.specs.declared.record.Record.{Record as Item};
    ghost use Rattle.run_events.specs.Record.{IsRecord};
    ghost use Rattle.machine_model.specs.Image.{IsLoadable};
    ghost use Rattle.hart_model.specs.Machine.{hart};
    ghost use Rattle.hart_model.specs.State.{State};
    ghost use Rattle.any_machine.specs.Replay.{outcome, shown_by};
    ghost use Rattle.any_replay.specs.Replays.{state_in};
    ghost use Rattle.any_replay.specs.Taking.{answer_of, takes_after};
    ghost use Rattle.board_model.specs.Guest.{started};
    ghost use Rattle.replayer.specs.Replays.{Replays, fault_of, ram_size_of, state_of, takes_of};

    /// A replay that was fed nothing, of a guest with this image and `ram_kib` KiB of RAM. It is the only call that
    /// takes memory.
    pub fn new(alloc: Global, image: &Image, ram_kib: u32) -> Result<Replay, NoMemory>
        requires least { LEAST_RAM_KIB ≤ ram_kib }
        requires most { ram_kib ≤ MOST_RAM_KIB }
        requires loadable { IsLoadable (1024 * ram_kib) image.now.segments }
        requires entry { image.now.entry % GRAIN ≡ 0 }
        ensures replays { IfOk result (λ replay. Replays (started image.now ram_kib) [] replay) }
        ensures size { IfOk result (λ replay. ram_size_of replay ≡ 1024 * ram_kib) }
        ensures takes { IfOk result (λ replay. takes_of replay ≡ 0) }
    {
        let ram = image.start_ram(alloc, ram_kib)?;
        Ok(Replay {
            fed: any_replay::Replay::new(Cpu::new(ram, image.entry)),
        })
    }

    /// Takes the next record: does the steps below its number, as far as the list fits, and shows each event; then it
    /// keeps the lines or the value that the record brings, or has its word written and shows that. It answers the first
    /// fault of the list so far, if there is one. After a fault it answers the same at every call, does nothing and shows
    /// nothing. It takes no memory.
    pub fn take<W: Watcher>(&mut self, item: &Record, seen: &mut W) -> Result<(), Diverged>
        requires item { IsRecord item.now }
        requires size { ram_size_of self.old ≡ 1024 * W.ram_kib seen.old }
        ensures answer { result ≡ answer_of (fault_of self.new) }
        ensures replays { (start : State) (before : List Item) → Replays start before self.old
            → Replays start (item.now ∷ before) self.new }
        ensures shown { (start : State) (before : List Item) (h : List Shown)
            → Replays start before self.old
            → W.has_seen seen.old (h ++ shown_by hart start (outcome hart start before))
            → W.has_seen seen.new
            (h ++ shown_by hart start (outcome hart start (item.now ∷ before))) }
        ensures diverged { IsTrue (is_some (fault_of self.old)) → self.new ≡ self.old }
        ensures still { IsTrue (is_some (fault_of self.old)) → seen.new ≡ seen.old }
        ensures takes { takes_of self.new ≡ takes_after (takes_of self.old) (fault_of self.new) }
        ensures ram { ram_size_of self.new ≡ ram_size_of self.old }
        ensures size { W.ram_kib seen.new ≡ W.ram_kib seen.old }
        ensures made { W.make seen.new ≡ W.make seen.old }
    {
        self.fed.take(item, seen)
    }

    /// The number of steps done.
    pub fn reach(&self) -> u32
        ensures done { result ≡ (state_of self.now).step }
        ensures executed { (start : State) (items : List Item) → Replays start items self.now
            → result ≡ (outcome hart start items).done }
    {
        self.fed.reach()
    }

    /// The hart.
    pub fn cpu(&self) -> &Cpu
        ensures cpu { result.now ≡ state_of self.now }
        ensures state { (start : State) (items : List Item) → Replays start items self.now
            → result.now ≡ state_in hart start (outcome hart start items) }
    {
        self.fed.hart()
    }

    /// The number of records accepted, which stops at 2^64 - 1.
    pub fn takes(&self) -> u64
        ensures { result ≡ takes_of self.now }
    {
        self.fed.takes()
    }
}
