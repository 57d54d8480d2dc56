//! The board, gone through step by step.
ghost use Rattle.std.specs.Prelude.{◌≡◌, ◌&&◌, ◌||◌, ◌==◌, IfOk, if◌then◌else◌};
ghost use Rattle.machine_model.specs.Board as model;
ghost use Rattle.rv_devices.specs.Effects.{effect_by};
ghost use Rattle.rv_devices.specs.Named.{named};

use crate::Effect;
use crate::disk::Disk;
use crate::register::{Register, find};
use crate::schedule::Schedule;
use crate::timer::Timer;
use crate::transfer::SECTOR_BYTES;
use in_script::Script;
use memory_map::{NoMemory, SERIAL_DATA, high_half, low_half, with_high, with_low};
use run_events::{DmaWord, Supplied};
use rv_memory::Ram;

/// The devices of a machine, which go through their script once. Contracts see what they stand for by `Stands`.
#[derive(Drop)]
pub struct Board {
    // how many steps have begun
    begun: u64,
    // neither the script nor the disk brings anything before this step
    quiet: u64,
    schedule: Schedule,
    timer: Timer,
    disk: Disk,
    serial_control: u32,
}

// This bit where the flag is set, else 0.
fn bit(flag: bool, value: u8) -> u8
    ensures { result ≡ (if flag then value else 0) }
{
    if flag { value } else { 0 }
}

// Whether a device that is ready raises the line, by its control register.
fn raises(ready: bool, control: u32) -> bool
    ensures { result ≡ (ready && control == 1) }
{
    ready && control == 1
}

// Whether one of two flags is set.
fn either(first: bool, second: bool) -> bool
    ensures { result ≡ (first || second) }
{
    first || second
}

// The serial status: bit 0 where a byte waits, and bit 1.
fn serial_status(waits: bool) -> u32
    ensures { result ≡ (if waits then 3 else 2) }
{
    if waits { 3 } else { 2 }
}

// What a store to a register does outside the board.
fn effect(register: Register, value: u32) -> Effect
    ensures { result ≡ effect_by value (named register) }
{
    match register {
        Register::SerialData => Effect::Byte {
            value: (value % 256) as u8,
        },
        Register::Power => Effect::Power {
            status: (value % 256) as u8,
        },
        _ => Effect::Quiet,
    }
}

// What a load gives that is not marked.
fn unmarked_value(value: u32) -> Supplied
    ensures { result ≡ model.unmarked value }
{
    Supplied { value, mark: 0 }
}

// The bytes with zeros up to whole sectors.
fn padded_disk(mut disk: Vec<u8>) -> Result<Vec<u8>, NoMemory>
    ensures { IfOk result (λ all. all.items ≡ model.padded disk.items) }
{
    let missing = (SECTOR_BYTES - disk.len() % SECTOR_BYTES) % SECTOR_BYTES;
    for _added in 0..missing {
        disk.push(0)?;
    }
    Ok(disk)
}

impl Board {
    ghost use Rattle.std.specs.Prelude.{◌≡◌, ◌≢◌, ℕ, ◌+◌, ◌-◌, ◌^◌, ◌≤◌, ◌<◌, List, [], length, drop, slice_get, vec_len, IfOk, IsSome, ◌↔◌};
    ghost use Rattle.memory_map.specs.declared.TheConstants.{MOST_DISK_BYTES, MOST_RAM_BYTES};
    ghost use Rattle.run_events.specs.declared.supply.DmaWord.{DmaWord};
    ghost use Rattle.machine_model.specs.Script.{Script as Outside};
    ghost use Rattle.machine_model.specs.Board as model;
    ghost use Rattle.machine_model.specs.Board.{BoardState, IsPlayable};
    ghost use Rattle.rv_devices.specs.Effects.{effect_of};
    ghost use Rattle.rv_devices.specs.Named.{named};
    ghost use Rattle.rv_devices.specs.Stands.{Stands, last_look, look_left_at, look_left_by, look_now, looks_before, quiet_ahead, steps_begun, words_due};
    ghost use Rattle.rv_devices.specs.Still.{AreStill};

    /// The board at reset, before the first step, with a disk file that is padded with zeros to whole sectors. It is the
    /// only call that takes memory.
    pub fn new(script: Script, disk: Vec<u8>) -> Result<Board, NoMemory>
        requires script { IsPlayable script }
        requires disk { vec_len disk ≤ MOST_DISK_BYTES }
        ensures stands { IfOk result
            (λ board. Stands script 0 [] (model.reset_board (model.padded disk.items)) board) }
        ensures begun { IfOk result (λ board. steps_begun board ≡ 0) }
        ensures left { IfOk result (λ board. words_due board ≡ 0) }
        ensures looks { IfOk result (λ board. last_look board ≡ 0) }
    {
        let bytes = padded_disk(disk)?;
        let Script {
            clock,
            sectors,
            entries,
        } = script;
        Ok(Board {
            begun: 0,
            quiet: 0,
            schedule: Schedule::new(entries),
            timer: Timer::new(clock),
            disk: Disk::new(bytes, sectors),
            serial_control: 0,
        })
    }

    // Goes on to a step before which something falls due.
    fn advance(&mut self, step: u32)
        ensures begun { self.new.begun ≡ step + 1 }
        ensures looks { self.new.quiet ≡ look_now self.new }
        ensures stands { (script : Outside) (state : BoardState)
            → Stands script step [] state self.old
            → Stands script (step + 1) (model.words_before step state)
            (model.at_step step state) self.new }
    {
        self.begun = u64::from(step) + 1;
        self.timer.advance(step);
        let ticks = self.schedule.advance(step);
        self.timer.pulse(ticks);
        self.disk.advance(step);
        self.quiet = self.schedule.due().min(self.disk.due());
    }

    /// Begins a step: what falls due with it is there. Steps begin in order from 0, and `due` has no word left of the
    /// step before.
    pub fn begin(&mut self, step: u32)
        requires order { step ≡ steps_begun self.old }
        requires drained { words_due self.old ≡ 0 }
        ensures begun { steps_begun self.new ≡ step + 1 }
        ensures looks { last_look self.new ≡ (if looks_before step self.old
            then look_now self.new else last_look self.old) }
        ensures stands { (script : Outside) (state : BoardState)
            → Stands script step [] state self.old
            → Stands script (step + 1) (model.words_before step state)
            (model.at_step step state) self.new }
    {
        if u64::from(step) < self.quiet.min(self.timer.rise) {
            self.begun = u64::from(step) + 1;
        } else {
            self.advance(step);
        }
    }

    /// Before how many of the steps to come nothing falls due, so that the lines stay as they are where no step accesses
    /// a device.
    #[inline]
    pub fn quiet_for(&self) -> u32
        requires { 1 ≤ steps_begun self.now }
        ensures still { (script : Outside) (step : ℕ) (words : List DmaWord) (state : BoardState)
            → Stands script (step + 1) words state self.now
            → AreStill script (model.board_lines script step state) (step + 1) result state }
        ensures ahead { result ≡ quiet_ahead self.now }
    {
        let until = self.quiet.min(self.timer.steady()).min(0x1_0000_0000);
        if until <= self.begun {
            return 0;
        }
        (until - self.begun) as u32
    }

    /// Begins so many steps at once, as `begin` does one after the other, before which nothing falls due.
    #[inline]
    pub fn pass(&mut self, count: u32)
        requires { count ≤ quiet_ahead self.old }
        ensures begun { steps_begun self.new ≡ steps_begun self.old + count }
        ensures left { words_due self.new ≡ words_due self.old }
        ensures looks { last_look self.new ≡ last_look self.old }
        ensures stands { (script : Outside) (begun : ℕ) (words : List DmaWord) (state : BoardState)
            → Stands script begun words state self.old
            → Stands script (begun + count) words state self.new }
    {
        self.begun += u64::from(count);
        self.timer.pass(self.begun);
    }

    /// Hands out the next word that the disk writes before this step. None is left where it answers None.
    pub fn due(&mut self) -> Option<DmaWord>
        ensures next { (script : Outside) (begun : ℕ) (words : List DmaWord) (state : BoardState)
            → Stands script begun words state self.old
            → result ≡ slice_get words 0 }
        ensures stands { (script : Outside) (begun : ℕ) (words : List DmaWord) (state : BoardState)
            → Stands script begun words state self.old
            → Stands script begun (drop 1 words) state self.new }
        ensures left { words_due self.new ≡ words_due self.old - 1 }
        ensures some { IsSome result ↔ (1 ≤ words_due self.old) }
        ensures begun { steps_begun self.new ≡ steps_begun self.old }
        ensures looks { last_look self.new ≡ last_look self.old }
    {
        self.disk.sending.next()
    }

    /// The interrupt lines of the step: bit 0 of the timer, bit 1 of the serial line and the disk.
    pub fn lines(&self) -> u8
        requires { 1 ≤ steps_begun self.now }
        ensures { (script : Outside) (step : ℕ) (words : List DmaWord) (state : BoardState)
            → Stands script (step + 1) words state self.now
            → result ≡ model.board_lines script step state }
    {
        let serial = raises(self.schedule.waits(), self.serial_control);
        bit(self.timer.line(), 1) + bit(either(serial, self.disk.line()), 2)
    }

    // What a load gives of a register other than the serial data.
    fn value_of(&self, register: Register) -> u32
        ensures { (script : Outside) (step : ℕ) (words : List DmaWord) (state : BoardState)
            → Stands script (step + 1) words state self.now
            → named register ≢ model.SerialData
            → model.unmarked result ≡ model.given_by script step state (named register) }
    {
        match register {
            Register::CompareLow => low_half(self.timer.compare),
            Register::CompareHigh => high_half(self.timer.compare),
            Register::TimeLow => low_half(self.timer.count),
            Register::TimeHigh => high_half(self.timer.count),
            Register::SerialStatus => serial_status(self.schedule.waits()),
            Register::SerialControl => self.serial_control,
            Register::DiskSector => self.disk.sector,
            Register::DiskAddress => self.disk.address,
            Register::DiskStatus => self.disk.status(),
            Register::DiskControl => self.disk.control,
            Register::DiskCount => self.disk.count_register(),
            Register::SerialData | Register::DiskCommand | Register::Power => 0,
        }
    }

    /// What a load of a device register gives: its whole word, with a mark for a serial byte. A load of the serial data
    /// takes the byte that waits.
    pub fn load(&mut self, address: u32) -> Supplied
        requires begun { 1 ≤ steps_begun self.old }
        requires register { IsSome (model.register_at address) }
        ensures value { (script : Outside) (step : ℕ) (words : List DmaWord) (state : BoardState)
            → Stands script (step + 1) words state self.old
            → result ≡ model.given_at script step state address }
        ensures stands { (script : Outside) (step : ℕ) (words : List DmaWord) (state : BoardState)
            → Stands script (step + 1) words state self.old
            → Stands script (step + 1) words (model.after_load script step state address) self.new }
        ensures begun { steps_begun self.new ≡ steps_begun self.old }
        ensures left { words_due self.new ≡ words_due self.old }
        ensures looks { last_look self.new ≡ last_look self.old }
    {
        if address == SERIAL_DATA {
            return self.schedule.take();
        }
        let Some(register) = find(address) else {
            unreachable!()
        };
        unmarked_value(self.value_of(register))
    }

    // A store to the disk's command register.
    fn command(&mut self, command: u32, ram: &Ram)
        requires begun { 1 ≤ self.old.begun }
        requires ram { length ram.now ≤ MOST_RAM_BYTES }
        ensures begun { self.new.begun ≡ self.old.begun }
        ensures left { self.new.disk.sending ≡ self.old.disk.sending }
        ensures looks { self.new.quiet ≡ look_left_by model.DiskCommand self.old self.new }
        ensures stands { (script : Outside) (step : ℕ) (words : List DmaWord) (state : BoardState)
            → Stands script (step + 1) words state self.old
            → Stands script (step + 1) words
            (model.commanded script step ram.now command state) self.new }
    {
        let before = (self.begun - 1).wrapping_add(u64::from(self.schedule.latency()));
        self.disk.command(command, before, ram);
        self.quiet = self.quiet.min(self.disk.due());
    }

    // What a store to a register changes in the board.
    fn put(&mut self, register: Register, value: u32, ram: &Ram)
        requires begun { 1 ≤ self.old.begun }
        requires ram { length ram.now ≤ MOST_RAM_BYTES }
        ensures begun { self.new.begun ≡ self.old.begun }
        ensures left { self.new.disk.sending ≡ self.old.disk.sending }
        ensures looks { self.new.quiet ≡ look_left_by (named register) self.old self.new }
        ensures stands { (script : Outside) (step : ℕ) (words : List DmaWord) (state : BoardState)
            → Stands script (step + 1) words state self.old
            → Stands script (step + 1) words
            (model.stored_by script step ram.now value state (named register)) self.new }
    {
        match register {
            Register::CompareLow => self.timer.compare = with_low(self.timer.compare, value),
            Register::CompareHigh => self.timer.compare = with_high(self.timer.compare, value),
            Register::TimeLow => self.timer.count = with_low(self.timer.count, value),
            Register::TimeHigh => self.timer.count = with_high(self.timer.count, value),
            Register::SerialControl => self.serial_control = value % 2,
            Register::DiskSector => self.disk.sector = value,
            Register::DiskAddress => self.disk.address = value,
            Register::DiskCommand => self.command(value, ram),
            Register::DiskStatus => self.disk.acknowledge(),
            Register::DiskControl => self.disk.control = value % 2,
            Register::SerialData | Register::SerialStatus | Register::DiskCount | Register::Power =>
                {}
        }
    }

    /// A store to a device register, whose value a narrow store extends by zero. A command of the disk that writes a
    /// sector takes its bytes of RAM at once.
    pub fn store(&mut self, address: u32, value: u32, ram: &Ram) -> Effect
        requires begun { 1 ≤ steps_begun self.old }
        requires register { IsSome (model.register_at address) }
        requires ram { length ram.now ≤ MOST_RAM_BYTES }
        ensures effect { result ≡ effect_of address value }
        ensures stands { (script : Outside) (step : ℕ) (words : List DmaWord) (state : BoardState)
            → Stands script (step + 1) words state self.old
            → Stands script (step + 1) words
            (model.after_store script step ram.now state address value) self.new }
        ensures begun { steps_begun self.new ≡ steps_begun self.old }
        ensures left { words_due self.new ≡ words_due self.old }
        ensures looks { last_look self.new ≡ look_left_at address self.old self.new }
    {
        let Some(register) = find(address) else {
            unreachable!()
        };
        self.put(register, value, ram);
        effect(register, value)
    }
}
