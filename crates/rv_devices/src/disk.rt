//! The disk: sectors of 512 bytes, and at most one command at a time.
ghost use Rattle.std.specs.Prelude.{◌≡◌, ◌&&◌, ◌==◌, nat_le};
ghost use Rattle.std.specs.List.{list_any};
ghost use Rattle.machine_model.specs.Board as model;

use crate::transfer::{SECTOR_BYTES, Transfer};
use in_script::Span;
use rv_memory::Ram;

/// What the disk is at: a command completes before the step `before`.
#[derive(Clone, Copy)]
pub enum Activity {
    /// No command was given, or the last one was acknowledged.
    Idle,
    /// A command is being done.
    Busy { before: u64 },
    /// A command was done.
    Done,
    /// A command was refused.
    Refused,
}

/// The disk and its registers.
#[derive(Drop)]
pub struct Disk {
    pub bytes: Vec<u8>,
    // the sectors whose words are marked
    pub sectors: Vec<Span>,
    // what the registers of these names hold
    pub sector: u32,
    pub address: u32,
    pub control: u32,
    pub activity: Activity,
    // the words of the command that is being done, and those of the last one that was done
    pub pending: Transfer,
    pub sending: Transfer,
}

// Whether a span names a sector.
fn holds_sector(span: &Span, sector: u32) -> bool
    ensures { result ≡ model.holds_sector sector span.now }
{
    span.first <= sector && sector <= span.last
}

// Whether one of some spans names a sector.
fn is_named(spans: &[Span], sector: u32) -> bool
    ensures { result ≡ list_any (model.holds_sector sector) spans.now }
{
    spans.iter().any(|span| holds_sector(span, sector))
}

impl Disk {
    ghost use Rattle.std.specs.Prelude.{◌≡◌, ◌&&◌, ◌==◌, ◌+◌, ◌-◌, ◌*◌, ◌/◌, ◌^◌, ◌≤◌, ◌<◌, ℕ, List, [], length, take, drop, vec_len, nat_le, if◌then◌else◌};
    ghost use Rattle.std.specs.List.{list_any};
    ghost use Rattle.run_events.specs.declared.supply.DmaWord.{DmaWord};
    ghost use Rattle.memory_map.specs.Ram.{InRam};
    ghost use Rattle.memory_map.specs.declared.TheConstants.{MOST_RAM_BYTES, RAM_START};
    ghost use Rattle.rv_memory.specs.Ram.{placed};
    ghost use Rattle.machine_model.specs.Script.{Script};
    ghost use Rattle.machine_model.specs.Board as model;
    ghost use Rattle.machine_model.specs.Board.{BoardState};
    ghost use Rattle.rv_devices.specs.Sends.{unsent};
    ghost use Rattle.rv_devices.specs.Serves.{Begins, NotBefore, Serves, activity_of, completes_before};

    /// The disk of these bytes at reset.
    pub fn new(bytes: Vec<u8>, sectors: Vec<Span>) -> Disk
        requires { length bytes.items < 2 ^ 32 }
        ensures serves { (script : Script)
            → sectors.items ≡ script.sectors
            → Serves script [] (model.reset_board bytes.items) result }
        ensures left { unsent result.sending ≡ 0 }
    {
        Disk {
            bytes,
            sectors,
            sector: 0,
            address: 0,
            control: 0,
            activity: Activity::Idle,
            pending: Transfer::none(),
            sending: Transfer::none(),
        }
    }

    // The number of sectors.
    fn count(&self) -> usize
        ensures { result ≡ model.sector_count self.now.bytes.items }
    {
        self.bytes.len() / SECTOR_BYTES
    }

    /// The number of sectors, as the register has it.
    pub fn count_register(&self) -> u32
        ensures { model.sector_count self.now.bytes.items < 2 ^ 32
            → result ≡ model.sector_count self.now.bytes.items }
    {
        (self.count() % 0x1_0000_0000) as u32
    }

    /// The status, as the register has it.
    pub fn status(&self) -> u32
        ensures { result ≡ model.status_of (activity_of self.now.activity self.now.pending) }
    {
        match self.activity {
            Activity::Idle => 0,
            Activity::Busy { .. } => 1,
            Activity::Done => 2,
            Activity::Refused => 3,
        }
    }

    /// Whether it raises the external line.
    pub fn line(&self) -> bool
        ensures { result
            ≡ (nat_le 2 (model.status_of (activity_of self.now.activity self.now.pending))
            && self.now.control == 1) }
    {
        self.status() >= 2 && self.control == 1
    }

    /// The step before which the command that is being done completes; where there is none, one that no run reaches.
    pub fn due(&self) -> u64
        ensures { result ≡ completes_before self.now.activity }
    {
        match self.activity {
            Activity::Busy { before } => before,
            _ => u64::MAX,
        }
    }

    /// Goes on to this step: a command may complete.
    pub fn advance(&mut self, step: u32)
        ensures { (script : Script) (state : BoardState)
            → Serves script [] state self.old
            → Serves script (model.words_before step state) (model.at_step step state) self.new }
    {
        match self.activity {
            Activity::Busy { before } => {
                if before <= u64::from(step) {
                    self.activity = Activity::Done;
                    self.sending = self.pending;
                }
            }
            _ => {}
        }
    }

    /// A store to the status.
    pub fn acknowledge(&mut self)
        ensures sending { self.new.sending ≡ self.old.sending }
        ensures quiet { (step : ℕ) → NotBefore step self.old.activity
            → NotBefore step self.new.activity }
        ensures serves { (script : Script) (words : List DmaWord) (state : BoardState)
            → Serves script words state self.old
            → Serves script words
            (record state { activity = model.acknowledged state.activity }) self.new }
    {
        match self.activity {
            Activity::Busy { .. } => {}
            _ => self.activity = Activity::Idle,
        }
    }

    // Whether a disk that is not busy accepts a command.
    fn accepts(&self, command: u32, ram: &Ram) -> bool
        ensures { result
            ≡ model.is_accepted (length ram.now) (model.sector_count self.now.bytes.items)
            command self.now.sector self.now.address }
    {
        (command == 1 || command == 2)
            && ((self.sector as usize) < self.count()
                && (self.address % 4 == 0 && ram.holds(self.address, SECTOR_BYTES as u32)))
    }

    // Begins to read: keeps the words of the sector until the command completes.
    fn read(&mut self, before: u64)
        requires { self.old.sector < model.sector_count self.old.bytes.items }
        ensures begins { Begins before self.old self.new }
        ensures bytes { self.new.bytes.items ≡ self.old.bytes.items }
        ensures kept { self.new.pending.bytes
            ≡ take 512 (drop (512 * self.old.sector) self.old.bytes.items) }
        ensures sent { self.new.pending.sent ≡ 0 }
        ensures mark { self.new.pending.mark
            ≡ (if list_any
            (model.holds_sector self.old.sector) self.old.sectors.items then 1 else 0) }
    {
        let at = SECTOR_BYTES * self.sector as usize;
        let sector = &self.bytes[at..at + SECTOR_BYTES];
        self.pending.bytes.copy_from_slice(sector);
        self.pending.sent = 0;
        self.pending.address = self.address;
        self.pending.mark = if is_named(&self.sectors, self.sector) {
            1
        } else {
            0
        };
        self.activity = Activity::Busy { before };
    }

    // Begins to write: takes the sector's bytes from RAM.
    fn write(&mut self, before: u64, ram: &Ram)
        requires sector { self.old.sector < model.sector_count self.old.bytes.items }
        requires held { InRam (length ram.now) self.old.address 512 }
        ensures begins { Begins before self.old self.new }
        ensures bytes { self.new.bytes.items
            ≡ placed self.old.bytes.items (512 * self.old.sector)
            (take 512 (drop (self.old.address - RAM_START) ram.now)) }
        ensures sent { self.new.pending.sent ≡ 512 }
    {
        let at = SECTOR_BYTES * self.sector as usize;
        self.bytes[at..at + SECTOR_BYTES].copy_from_slice(ram.bytes(
            self.address,
            SECTOR_BYTES as u32,
        ));
        self.pending.sent = SECTOR_BYTES;
        self.pending.address = self.address;
        self.activity = Activity::Busy { before };
    }

    /// A store to the command; one that is accepted completes before the step `before`.
    pub fn command(&mut self, command: u32, before: u64, ram: &Ram)
        requires { length ram.now ≤ MOST_RAM_BYTES }
        ensures sending { self.new.sending ≡ self.old.sending }
        ensures serves { (script : Script) (step : ℕ) (words : List DmaWord) (state : BoardState)
            → before ≡ step + model.latency script step
            → Serves script words state self.old
            → Serves script words (model.commanded script step ram.now command state) self.new }
    {
        if self.status() == 1 {
            return;
        }
        if !self.accepts(command, ram) {
            self.activity = Activity::Refused;
            return;
        }
        if command == 1 {
            self.read(before);
            return;
        }
        self.write(before, ram);
    }
}
