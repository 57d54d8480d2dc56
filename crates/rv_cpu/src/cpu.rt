//! The hart as its callers see it.
ghost use Rattle.memory_map.specs.declared.TheConstants.{MOST_STEPS};
ghost use Rattle.std.specs.Prelude.{◌≡◌, ◌+◌, ◌-◌, ◌*◌, ◌%◌, ◌<◌, ◌≤◌, ℕ, false, Some, IfSome, IsTrue, is_some, length};
ghost use Rattle.any_machine.specs.Machine.{is_load};
ghost use Rattle.run_events.specs.Event.{Fits};

use crate::engine::Engine;
use memory_map::CrossesThreads;
use run_events::{Event, Need, Supplied, Watcher};
use rv_memory::Ram;
use std::marker::Model;

/// A hart and its RAM. Contracts see the state of the definition: `hart_model`'s `State`.
#[derive(Drop)]
pub struct Cpu {
    engine: Engine,
}

impl CrossesThreads for Cpu {}

impl Model for Cpu {
    ghost use Rattle.hart_model.specs.State.{State};
    ghost use Rattle.rv_cpu.specs.Sound.{IsSound};

    ghost Value = { State };

    ghost view = { λ c. c.engine };

    ghost invariant = { λ c. IsSound c.engine };
}

impl Cpu {
    ghost use Rattle.memory_map.specs.declared.TheConstants.{GRAIN};
    ghost use Rattle.any_machine.specs.Running.{IsFed, RunSoFar, unfed};
    ghost use Rattle.hart_model.specs.Machine.{hart, holds_word};
    ghost use Rattle.hart_model.specs.State.{State, register, reset_state};
    ghost use Rattle.hart_model.specs.Step.{cpu, needs, touch};
    ghost use Rattle.rv_cpu.specs.Plain.{is_plain};
    ghost use Rattle.rv_cpu.specs.PlainRun.{are_plain, plain_after};

    /// A hart at step 0: all registers are 0, the CSRs are those of reset, no word is reserved. `entry` is the address of
    /// its first instruction. It takes no memory.
    pub fn new(ram: Ram, entry: u32) -> Cpu
        requires { entry % GRAIN ≡ 0 }
        ensures { result ≡ reset_state ram entry }
    {
        Cpu {
            engine: Engine::new(ram, entry),
        }
    }

    /// What the next step has to be given, with bit 0 of `lines` for the timer's interrupt line and bit 1 for the
    /// external one: `Need::Load` exactly where it loads a device register.
    pub fn next_need(&self, lines: u8) -> Need
        ensures { result ≡ needs self.now lines }
    {
        self.engine.next_need(lines)
    }

    /// Does the next step with these interrupt lines, and with what the device register that it loads gives, and answers
    /// what it shows. (Unprivileged manual, chapters 2, 3, 7, 8 and 9; Privileged manual, chapter 3.)
    pub fn step(&mut self, lines: u8, supplied: Option<Supplied>) -> Event
        requires room { self.old.step < MOST_STEPS }
        requires given { is_load (needs self.old lines) ≡ is_some supplied }
        ensures step { cpu self.old lines supplied ≡ (result, self.new) }
        ensures size { length self.new.ram ≡ length self.old.ram }
        ensures fits { (ram_kib : ℕ) → length self.old.ram ≡ 1024 * ram_kib → Fits ram_kib result }
    {
        self.engine.step(lines, supplied)
    }

    /// Does the next steps with these interrupt lines as long as they are plain ones, and only those below a number, and
    /// shows each to a watcher. A plain step executes an instruction that is no fence, no atomic and none of the privileged
    /// manual, and that accesses no device; it needs nothing, and stores nothing outside RAM.
    pub fn run_shown<W: Watcher>(&mut self, lines: u8, number: u32, seen: &mut W)
        requires number { number ≤ MOST_STEPS }
        requires size { length self.old.ram ≡ 1024 * W.ram_kib seen.old }
        ensures runs { RunSoFar hart number (unfed (λ (s : State). s.step) lines self.old)
            (unfed (λ (s : State). s.step) lines self.new) (W.has_seen seen.old)
            (W.has_seen seen.new) }
        ensures plain { IsTrue (are_plain lines (self.new.step - self.old.step) self.old) }
        ensures state { plain_after lines (self.new.step - self.old.step) self.old ≡ self.new }
        ensures stops { self.new.step < number → is_plain self.new lines ≡ false }
        ensures rises { self.old.step ≤ self.new.step }
        ensures ram { length self.new.ram ≡ length self.old.ram }
        ensures size { W.ram_kib seen.new ≡ W.ram_kib seen.old }
        ensures made { W.make seen.new ≡ W.make seen.old }
    {
        self.engine.run_shown(lines, number, seen);
    }

    /// Does the next step where it loads a device register, with these interrupt lines and with what the register supplied,
    /// and answers what it shows. Else nothing is done. It is `step` with a shorter way.
    #[inline(always)]
    pub fn step_fed(&mut self, lines: u8, supplied: Supplied) -> Option<Event>
        requires room { self.old.step < MOST_STEPS }
        ensures loads { is_some result ≡ is_load (needs self.old lines) }
        ensures step { IfSome result (λ event.
            cpu self.old lines (Some supplied) ≡ (event, self.new)) }
        ensures none { is_some result ≡ false → self.new ≡ self.old }
        ensures size { length self.new.ram ≡ length self.old.ram }
    {
        self.engine.step_fed(lines, supplied)
    }

    /// Does the next step where it loads a device register, as `step_fed` does, and shows it. It answers whether it did.
    pub fn feed_shown<W: Watcher>(&mut self, lines: u8, supplied: Supplied, seen: &mut W) -> bool
        requires room { self.old.step < MOST_STEPS }
        requires size { length self.old.ram ≡ 1024 * W.ram_kib seen.old }
        ensures loads { result ≡ is_load (needs self.old lines) }
        ensures fed { IsTrue result → IsFed hart lines supplied self.old self.new
            (W.has_seen seen.old) (W.has_seen seen.new) }
        ensures same { result ≡ false → self.new ≡ self.old }
        ensures unseen { result ≡ false → seen.new ≡ seen.old }
        ensures ram { length self.new.ram ≡ length self.old.ram }
        ensures size { W.ram_kib seen.new ≡ W.ram_kib seen.old }
        ensures made { W.make seen.new ≡ W.make seen.old }
    {
        self.engine.feed_shown(lines, supplied, seen)
    }

    /// Does the next steps with these interrupt lines as long as they are plain ones, as `run_shown` says, and at most
    /// so many. It answers how many it did. None of them needs or stores anything outside RAM.
    pub fn run_plain(&mut self, lines: u8, at_most: u32) -> u32
        requires { self.old.step + at_most ≤ MOST_STEPS }
        ensures few { result ≤ at_most }
        ensures plain { IsTrue (are_plain lines result self.old) }
        ensures state { plain_after lines result self.old ≡ self.new }
        ensures stops { result < at_most → is_plain self.new lines ≡ false }
        ensures size { length self.new.ram ≡ length self.old.ram }
    {
        self.engine.run_plain(lines, at_most)
    }

    /// Whether the address is that of an aligned word in RAM.
    pub fn holds(&self, address: u32) -> bool
        ensures { result ≡ holds_word self.now address }
    {
        address % 4 == 0 && self.engine.ram.holds(address, 4)
    }

    /// The disk writes a word at the address of an aligned word in RAM before the next step, and ends a reservation of it.
    /// It answers what that shows.
    pub fn dma(&mut self, address: u32, word: u32, mark: u8) -> Event
        requires { IsTrue (holds_word self.old address) }
        ensures touch { touch self.old (record { address = address; word = word; mark = mark })
            ≡ (result, self.new) }
        ensures size { length self.new.ram ≡ length self.old.ram }
        ensures fits { (ram_kib : ℕ) → length self.old.ram ≡ 1024 * ram_kib → Fits ram_kib result }
    {
        self.engine.dma(address, word, mark)
    }

    /// The number of steps done.
    #[inline(always)]
    pub fn steps(&self) -> u32
        ensures { result ≡ self.now.step }
    {
        self.engine.steps
    }

    /// The address of the next instruction.
    pub fn pc(&self) -> u32
        ensures value { result ≡ self.now.pc }
        ensures aligned { result % GRAIN ≡ 0 }
    {
        self.engine.pc
    }

    /// What the register x`index` holds.
    pub fn register(&self, index: u32) -> u32
        requires { index < 32 }
        ensures { result ≡ register self.now index }
    {
        self.engine.register(index)
    }

    /// The bytes of RAM.
    pub fn ram(&self) -> &Ram
        ensures { result.now ≡ self.now.ram }
    {
        &self.engine.ram
    }
}
