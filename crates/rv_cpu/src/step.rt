//! One step.
ghost use Rattle.memory_map.specs.declared.TheConstants.{MOST_STEPS};
ghost use Rattle.std.specs.Prelude.{◌≡◌, ◌+◌, ◌<◌, true, None, Some, IsTrue};
ghost use Rattle.rv_decode.specs.Valid.{IsRegister, IsValid};
ghost use Rattle.hart_model.specs.Machine.{holds_word};
ghost use Rattle.hart_model.specs.Effect as model;
ghost use Rattle.hart_model.specs.Operations.{sum};
ghost use Rattle.hart_model.specs.State.{register};
ghost use Rattle.hart_model.specs.Step.{cpu, outcome, step_by, trapped, interrupted, touch};
ghost use Rattle.rv_cpu.specs.Midway.{Goes, WasDone, at, closed, ended};

use crate::atomics::is_reserved;
use crate::done::Done;
use crate::engine::Engine;
use run_events::{Access, Event, Supplied, Told};
use rv_csr::causes::{ILLEGAL_INSTRUCTION, INSTRUCTION_FAULT};
use rv_decode::{Instr, LoadOp, StoreOp, decode};

/// How many bytes an instruction has.
pub const SIZE: u32 = 4;

impl Engine {
    // Ends a step whose instruction was executed: its event, the next pc, and the counters.
    #[inline(always)]
    fn end(&mut self, word: u32, told: Told, value: u32, next: u32, access: Access) -> Event
        requires { self.old.step < MOST_STEPS }
        ensures { ended told word (Goes value next access) self.old ≡ Some (result, self.new) }
    {
        let event = Event::Exec {
            step: self.steps,
            pc: self.pc,
            word,
            next,
            result: value,
            access,
            told,
        };
        self.pc = next;
        self.csrs.count(true);
        self.steps += 1;
        event
    }

    // Takes an exception at the instruction of this word. (Privileged manual, 3.1.7.)
    fn trap(&mut self, word: u32, cause: u32, value: u32) -> Event
        requires { self.old.step < MOST_STEPS }
        ensures { trapped self.old word cause value ≡ (result, self.new) }
    {
        let (step, pc) = (self.steps, self.pc);
        let next = self.csrs.enter(cause, pc, value);
        self.csrs.count(false);
        self.pc = next;
        self.steps += 1;
        Event::Trap {
            step,
            pc,
            word,
            cause,
            value,
            next,
        }
    }

    // Takes an interrupt in place of the next instruction. (Privileged manual, 3.1.9.)
    fn interrupt(&mut self, cause: u32) -> Event
        requires { self.old.step < MOST_STEPS }
        ensures { interrupted self.old cause ≡ (result, self.new) }
    {
        let (step, pc) = (self.steps, self.pc);
        let next = self.csrs.enter(cause, pc, 0);
        self.csrs.count(false);
        self.pc = next;
        self.steps += 1;
        Event::Irq {
            step,
            pc,
            cause,
            next,
        }
    }

    // Ends a step whose instruction has left this, where x10 to x12 held `told` before it.
    #[inline(always)]
    fn conclude(&mut self, word: u32, size: u32, told: Told, done: Done) -> Event
        requires room { self.old.step < MOST_STEPS }
        requires not_left { WasDone done }
        ensures { closed told word (at size done self.old) ≡ Some (result, self.new) }
    {
        match done {
            Done::Quiet { result, next } => self.end(word, told, result, next, Access::Quiet),
            Done::Accessed { result, access } => {
                let next = self.next(size);
                self.end(word, told, result, next, access)
            }
            Done::Raised { cause, value } => self.trap(word, cause, value),
            Done::Other => unreachable!(),
        }
    }

    // Does the step of an instruction, in one way for all kinds.
    fn run(
        &mut self,
        lines: u8,
        supplied: Option<Supplied>,
        word: u32,
        size: u32,
        instr: Instr,
    ) -> Event
        requires valid { IsValid instr }
        requires room { self.old.step < MOST_STEPS }
        ensures { step_by self.old word (outcome self.old lines supplied word size instr)
            ≡ (result, self.new) }
    {
        let told = self.argument_registers();
        let done = self.execute(lines, supplied, word, size, instr);
        self.conclude(word, size, told, done)
    }

    /// Does the step of a load.
    #[inline(always)]
    pub fn run_load(
        &mut self,
        supplied: Option<Supplied>,
        word: u32,
        size: u32,
        op: LoadOp,
        rd: u32,
        rs1: u32,
        offset: u32,
    ) -> Event
        requires rd { IsRegister rd }
        requires rs1 { IsRegister rs1 }
        requires room { self.old.step < MOST_STEPS }
        ensures { step_by self.old word
            (model.loading self.old supplied size op rd (sum (register self.old rs1) offset))
            ≡ (result, self.new) }
    {
        let told = self.argument_registers();
        let done = self.load(supplied, size, op, rd, rs1, offset);
        self.conclude(word, size, told, done)
    }

    // Does the step of a store.
    #[inline(always)]
    fn run_store(
        &mut self,
        word: u32,
        size: u32,
        op: StoreOp,
        rs2: u32,
        rs1: u32,
        offset: u32,
    ) -> Event
        requires rs2 { IsRegister rs2 }
        requires rs1 { IsRegister rs1 }
        requires room { self.old.step < MOST_STEPS }
        ensures { step_by self.old word
            (model.storing self.old size op (register self.old rs2)
            (sum (register self.old rs1) offset))
            ≡ (result, self.new) }
    {
        let told = self.argument_registers();
        let done = self.store(size, op, rs2, rs1, offset);
        self.conclude(word, size, told, done)
    }

    // Does the step of an instruction, of any kind. Loads and stores are done right here: guests that wait for devices are
    // full of them.
    #[tactic(auto, unfolding(hart_model::specs::Step::outcome))]
    #[inline(always)]
    fn run_decoded(
        &mut self,
        lines: u8,
        supplied: Option<Supplied>,
        word: u32,
        size: u32,
        instr: Instr,
    ) -> Event
        requires valid { IsValid instr }
        requires room { self.old.step < MOST_STEPS }
        ensures { step_by self.old word (outcome self.old lines supplied word size instr)
            ≡ (result, self.new) }
    {
        match instr {
            Instr::Load { op, rd, rs1, imm } => {
                self.run_load(supplied, word, size, op, rd, rs1, imm.cast_unsigned())
            }
            Instr::Store { op, rs1, rs2, imm } => {
                self.run_store(word, size, op, rs2, rs1, imm.cast_unsigned())
            }
            _ => self.run(lines, supplied, word, size, instr),
        }
    }

    /// Does the next step, with these interrupt lines and what a device register supplied, and answers what it shows.
    #[tactic(auto, unfolding(hart_model::specs::Step::cpu, hart_model::specs::Step::step_by))]
    pub fn step(&mut self, lines: u8, supplied: Option<Supplied>) -> Event
        requires { self.old.step < MOST_STEPS }
        ensures { cpu self.old lines supplied ≡ (result, self.new) }
    {
        if let Some(cause) = self.csrs.pending(lines) {
            return self.interrupt(cause);
        }
        if !self.ram.holds(self.pc, SIZE) {
            return self.trap(0, INSTRUCTION_FAULT, self.pc);
        }
        let word = self.ram.load(self.pc, SIZE);
        match decode(word) {
            Some(instr) => self.run_decoded(lines, supplied, word, SIZE, instr),
            None => self.trap(word, ILLEGAL_INSTRUCTION, word),
        }
    }

    /// The disk writes a word into RAM before the next step, and ends a reservation of it. It answers what that shows.
    pub fn dma(&mut self, address: u32, word: u32, mark: u8) -> Event
        requires { IsTrue (holds_word self.old address) }
        ensures { touch self.old (record { address = address; word = word; mark = mark })
            ≡ (result, self.new) }
    {
        self.ram.store(address, 4, word);
        if is_reserved(self.reserved, address) {
            self.reserved = None;
        }
        Event::Dma {
            step: self.steps,
            address,
            word,
            mark,
        }
    }
}
