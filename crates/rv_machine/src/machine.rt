//! The recorder.
ghost use Rattle.memory_map.specs.declared.TheConstants.{GRAIN, LEAST_RAM_KIB, MOST_DISK_BYTES, MOST_RAM_BYTES, MOST_RAM_KIB, MOST_STEPS};
ghost use Rattle.std.specs.Prelude.{◌≡◌, ◌+◌, ◌%◌, ◌*◌, ◌^◌, ◌<◌, ◌≤◌, ℕ, false, true, List, IfOk, IsTrue, is_some, length, map, vec_len};
ghost use Rattle.any_machine.specs.Log.{items};
ghost use Rattle.any_machine.specs.Machine.{is_load};
ghost use Rattle.any_machine.specs.Recorder.{end_item};
ghost use Rattle.board_model.specs.Guest.{run, started};
ghost use Rattle.board_model.specs.TheBoard.{after_access, after_event};
ghost use Rattle.hart_model.proofs.DeviceLaws.{AtRegister, IsAtRegister};
ghost use Rattle.hart_model.specs.Machine.{holds_word};
ghost use Rattle.hart_model.specs.Step.{cpu as step_of, needs, touch};
ghost use Rattle.machine_model.specs.Board.{BoardState, IsPlayable};
ghost use Rattle.machine_model.specs.Image.{IsLoadable};
ghost use Rattle.machine_model.specs.Script.{Script as Outside};
ghost use Rattle.run_events.specs.declared.supply.DmaWord.{DmaWord as Written};
ghost use Rattle.rv_devices.specs.Stands.{Stands, steps_begun, words_due};
ghost use Rattle.rv_machine.specs.Phase.{Supplies, awaits, inside, is_over, sends};
ghost use Rattle.rv_machine.specs.declared.phase.Phase.TheVariants.{Between, Over, Words, Lines, Need as Asks};

use crate::phase::Phase;
use crate::told::{after_power, mark_item, plain, reach_item, word_item};
use any_machine::{Advance, Recorder};
use elf_image::Image;
use in_script::Script;
use memory_map::{CrossesThreads, NoMemory};
use run_events::{Access, DmaWord, EndCause, Event, Item, Need, Record, Supplied};
use rv_cpu::Cpu;
use rv_devices::Board;
use rv_memory::Ram;
use std::alloc::Global;

/// A guest beside its board, that is run on from record to record. Contracts say by `ToCome` which items are still to come.
#[derive(Drop)]
pub struct Machine {
    cpu: Cpu,
    board: Board,
    // how many steps may still begin
    left: u32,
    // the interrupt lines that were told last
    lines: u8,
    phase: Phase,
    ghost begun: { steps_begun board ≡ cpu.step + inside phase },
    ghost drained: { words_due board ≤ sends phase },
    ghost room: { cpu.step + left + inside phase ≤ MOST_STEPS },
    ghost given: { awaits phase (is_load (needs cpu lines)) ≡ true },
    ghost size: { length cpu.ram ≤ MOST_RAM_BYTES },
}

impl CrossesThreads for Machine {}

// The hart of a guest before its first step, over the RAM that its image fills.
fn start(alloc: Global, image: &Image, ram_kib: u32) -> Result<Cpu, NoMemory>
    requires least { LEAST_RAM_KIB ≤ ram_kib }
    requires most { ram_kib ≤ MOST_RAM_KIB }
    requires loadable { IsLoadable (1024 * ram_kib) image.now.segments }
    requires aligned { image.now.entry % GRAIN ≡ 0 }
    ensures start { IfOk result (λ cpu. cpu ≡ started image.now ram_kib) }
    ensures size { IfOk result (λ cpu. length cpu.ram ≡ 1024 * ram_kib) }
{
    let ram = image.start_ram(alloc, ram_kib)?;
    Ok(Cpu::new(ram, image.entry))
}

impl Machine {
    ghost use Rattle.any_machine.specs.Recording.{Advances, Falls};
    ghost use Rattle.rv_machine.specs.ToCome.{FoundNext, ToCome, IsOneTurn, recording, steps_of};

    /// The guest of an image at step 0, beside the board of this script and this disk file, which will be run for at most
    /// `limit` steps. RAM has 64 to 16,384 KiB, the disk file at most 16 MiB. It is the only call that takes memory.
    pub fn new(
        alloc: Global,
        image: &Image,
        script: Script,
        disk: Vec<u8>,
        ram_kib: u32,
        limit: u32,
    ) -> Result<Machine, NoMemory>
        requires least { LEAST_RAM_KIB ≤ ram_kib }
        requires most { ram_kib ≤ MOST_RAM_KIB }
        requires limit { limit ≤ MOST_STEPS }
        requires loadable { IsLoadable (1024 * ram_kib) image.now.segments }
        requires aligned { image.now.entry % GRAIN ≡ 0 }
        requires script { IsPlayable script }
        requires disk { vec_len disk ≤ MOST_DISK_BYTES }
        ensures { IfOk result (λ machine. ToCome machine
            (items (run image.now script disk.items ram_kib limit))) }
    {
        let cpu = start(alloc, image, ram_kib)?;
        let board = Board::new(script, disk)?;
        Ok(Machine {
            cpu,
            board,
            left: limit,
            lines: 0,
            phase: Phase::Between,
        })
    }

    /// Runs on to the next record and no further: at most 256 steps. `byte` is the output of the step that a record says is
    /// done. `Ended` comes exactly after the record of the end, and then at each later call. It takes no memory.
    pub fn advance(&mut self) -> Advance
        ensures next { (items : List Item) → ToCome self.old items
            → Advances recording items self.new result }
        ensures falls { Falls recording self.old self.new result }
        ensures few { steps_of self.new ≤ steps_of self.old + 256 }
    {
        match self.phase {
            Phase::Over => Advance::Ended,
            _ => {
                let given = self.next_item();
                Advance::Item {
                    item: given.item,
                    byte: given.byte,
                }
            }
        }
    }

    // Runs on to the next item, which comes at the latest after a step whose number plus 1 is a multiple of 256.
    #[inline(always)]
    fn next_item(&mut self) -> Item
        requires { is_over self.old.phase ≡ false }
        ensures { FoundNext result self.old self.new }
    {
        'turns: for _turn in 0..256 - self.cpu.steps() % 256 {
            if let Some(item) = self.turn() {
                return item;
            }
        }
        unreachable!()
    }

    // Goes on to the next item, or to the end of the step that is to be done. All phases are one function in the end, so
    // that an item is written once, where the caller wants it.
    #[inline(always)]
    fn turn(&mut self) -> Option<Item>
        requires { is_over self.old.phase ≡ false }
        ensures { IsOneTurn result self.old self.new }
    {
        match self.phase {
            Phase::Between => self.begin(),
            Phase::Words => self.write_words(),
            Phase::Lines => self.tell_lines(),
            Phase::Need => self.run_on(),
            Phase::Given { supplied } => self.finish(Some(supplied)),
            Phase::Ending { cause } => Some(self.end(cause)),
            Phase::Over => unreachable!(),
        }
    }

    // Begins the next step, if one is left.
    #[inline(always)]
    fn begin(&mut self) -> Option<Item>
        requires { self.old.phase ≡ Between }
        ensures { IsOneTurn result self.old self.new }
    {
        if self.left == 0 {
            return Some(self.end(EndCause::Limit));
        }
        self.board.begin(self.cpu.steps());
        self.left -= 1;
        self.phase = Phase::Words;
        self.write_words()
    }

    // Writes the next word of the disk to RAM, if one is due.
    #[inline(always)]
    fn write_words(&mut self) -> Option<Item>
        requires { self.old.phase ≡ Words }
        ensures { IsOneTurn result self.old self.new }
    {
        match self.board.due() {
            Some(word) => {
                write_word(&mut self.cpu, &word);
                Some(word_item(self.cpu.steps(), &word))
            }
            None => {
                self.phase = Phase::Lines;
                self.tell_lines()
            }
        }
    }

    // Looks at the lines, and tells them where they have changed.
    #[inline(always)]
    fn tell_lines(&mut self) -> Option<Item>
        requires { self.old.phase ≡ Lines }
        ensures { IsOneTurn result self.old self.new }
    {
        let bits = self.board.lines();
        self.phase = Phase::Need;
        if bits == self.lines {
            self.run_on()
        } else {
            self.lines = bits;
            Some(plain(Record::Lines {
                step: self.cpu.steps(),
                bits,
            }))
        }
    }

    // Does the step and those after it as long as they are plain ones and nothing else is due, and then the one that is none.
    #[inline(always)]
    fn run_on(&mut self) -> Option<Item>
        requires { self.old.phase ≡ Asks }
        ensures { IsOneTurn result self.old self.new }
    {
        let step = self.cpu.steps();
        let more = self.board.quiet_for().min(self.left).min(255 - step % 256);
        let done = self.cpu.run_plain(self.lines, more + 1);
        if done <= more {
            self.board.pass(done);
            self.left -= done;
            return self.ask_need();
        }
        self.board.pass(more);
        self.left -= more;
        self.phase = Phase::Between;
        mark_item(step + done)
    }

    // Does the step, or takes of the board what it has to be given.
    #[inline(always)]
    fn ask_need(&mut self) -> Option<Item>
        requires { self.old.phase ≡ Asks }
        ensures { IsOneTurn result self.old self.new }
    {
        match self.cpu.next_need(self.lines) {
            Need::Load { address, .. } => {
                let supplied = self.board.load(address);
                self.phase = Phase::Given { supplied };
                Some(plain(Record::Load {
                    step: self.cpu.steps(),
                    value: supplied.value,
                    mark: supplied.mark,
                }))
            }
            Need::Nothing => self.finish(None),
        }
    }

    // Does the step with what it was given, and tells that it is done where that is told.
    #[inline(always)]
    fn finish(&mut self, supplied: Option<Supplied>) -> Option<Item>
        requires inside { inside self.old.phase ≡ 1 }
        requires quiet { sends self.old.phase ≡ 0 }
        requires given { Supplies self.old.phase supplied (needs self.old.cpu self.old.lines) }
        ensures { IsOneTurn result self.old self.new }
    {
        let step = self.cpu.steps();
        let event = step_given(&mut self.cpu, self.lines, supplied);
        store_outside(&mut self.board, &event, self.cpu.ram());
        self.phase = after_power(&event);
        reach_item(step, &event)
    }

    // Gives the end.
    fn end(&mut self, cause: EndCause) -> Item
        requires outside { inside self.old.phase ≡ 0 }
        requires quiet { sends self.old.phase ≡ 0 }
        ensures item { result ≡ end_item self.old.cpu.step cause }
        ensures over { self.new.phase ≡ Over }
        ensures same { self.new.board ≡ self.old.board }
        ensures hart { self.new.cpu ≡ self.old.cpu }
    {
        self.phase = Phase::Over;
        plain(Record::End {
            step: self.cpu.steps(),
            cause,
        })
    }
}

impl Recorder for Machine {
    ghost use Rattle.rv_machine.specs.ToCome.{recording};

    ghost recording = { recording };

    fn advance(&mut self) -> Advance {
        Machine::advance(self)
    }
}

// Does a step with what it was given, and answers what it shows. A load of a device register has a way of its own, in which
// the compiler sees that nothing is stored.
#[inline(always)]
fn step_given(cpu: &mut Cpu, lines: u8, supplied: Option<Supplied>) -> Event
    requires room { cpu.old.step < MOST_STEPS }
    requires given { is_load (needs cpu.old lines) ≡ is_some supplied }
    ensures step { step_of cpu.old lines supplied ≡ (result, cpu.new) }
    ensures size { length cpu.new.ram ≡ length cpu.old.ram }
{
    let Some(given) = supplied else {
        return cpu.step(lines, None);
    };
    match cpu.step_fed(lines, given) {
        Some(event) => event,
        None => unreachable!(),
    }
}

// Writes a word of the disk to RAM. The disk has none for another place.
fn write_word(cpu: &mut Cpu, word: &DmaWord)
    ensures word { IsTrue (holds_word cpu.old word.now.address)
        → (touch cpu.old word.now).1 ≡ cpu.new }
    ensures step { cpu.new.step ≡ cpu.old.step }
    ensures size { length cpu.new.ram ≡ length cpu.old.ram }
{
    if cpu.holds(word.address) {
        let _shown = cpu.dma(word.address, word.word, word.mark);
    }
}

// What a step's access does to the devices.
#[inline(always)]
fn store_access(board: &mut Board, access: &Access, ram: &Ram)
    requires begun { 1 ≤ steps_begun board.old }
    requires at { AtRegister access.now }
    requires ram { length ram.now ≤ MOST_RAM_BYTES }
    ensures stands { (script : Outside) (step : ℕ) (words : List Written) (state : BoardState)
        → Stands script (step + 1) words state board.old
        → Stands script (step + 1) words
        (after_access script step ram.now state access.now) board.new }
    ensures begun { steps_begun board.new ≡ steps_begun board.old }
    ensures left { words_due board.new ≡ words_due board.old }
{
    match *access {
        Access::Store {
            address,
            value,
            device,
            ..
        } => {
            if device {
                let _effect = board.store(address, value, ram);
            }
        }
        Access::Quiet | Access::Load { .. } | Access::Swap { .. } => {}
    }
}

// What a step's event does to the devices.
#[inline(always)]
fn store_outside(board: &mut Board, event: &Event, ram: &Ram)
    requires begun { 1 ≤ steps_begun board.old }
    requires at { IsAtRegister event.now }
    requires ram { length ram.now ≤ MOST_RAM_BYTES }
    ensures stands { (script : Outside) (step : ℕ) (words : List Written) (state : BoardState)
        → Stands script (step + 1) words state board.old
        → Stands script (step + 1) words
        (after_event script step ram.now state event.now) board.new }
    ensures begun { steps_begun board.new ≡ steps_begun board.old }
    ensures left { words_due board.new ≡ words_due board.old }
{
    match event {
        Event::Exec { access, .. } => store_access(board, access, ram),
        Event::Dma { .. } | Event::Irq { .. } | Event::Trap { .. } => {}
    }
}
