//! Plain steps without events: the pc is kept beside the hart, and the counters rise once, at the end.
ghost use Rattle.memory_map.specs.declared.TheConstants.{MOST_STEPS};
ghost use Rattle.std.specs.Prelude.{◌≡◌, ◌+◌, ◌<◌, ◌≤◌, None, IsTrue, false, if◌then◌else◌};
ghost use Rattle.rv_decode.specs.Valid.{IsRegister, IsValid};
ghost use Rattle.hart_model.specs.Effect as model;
ghost use Rattle.hart_model.specs.Effect.{Does};
ghost use Rattle.hart_model.specs.Fetch.{fetched};
ghost use Rattle.hart_model.specs.Operations.{sum};
ghost use Rattle.hart_model.specs.State.{register};
ghost use Rattle.rv_cpu.specs.Batch.{caught_up, counted_times, from, goes, goes_by, goes_fetched, goes_plainly, going};
ghost use Rattle.rv_cpu.specs.Plain.{is_plain};
ghost use Rattle.rv_cpu.specs.PlainRun.{are_plain, plain_after};

use crate::accesses::low_bytes;
use crate::alu;
use crate::engine::Engine;
use crate::step::SIZE;
use memory_map::GRAIN;
use rv_csr::Csrs;
use rv_decode::{Instr, LoadOp, StoreOp, decode};

// The counters after so many steps that retired an instruction.
fn count_steps(csrs: &mut Csrs, count: u32)
    ensures { csrs.new ≡ counted_times count csrs.old }
{
    if count > 0 {
        csrs.count(true);
        let more = u64::from(count - 1);
        let (cycles, retired) = (csrs.mcycle, csrs.minstret);
        csrs.mcycle = cycles.wrapping_add(more);
        csrs.minstret = retired.wrapping_add(more);
    }
}

impl Engine {
    // Writes a register, and goes on to the instruction after this one.
    #[inline(always)]
    fn batch_write(&mut self, size: u32, pc: u32, rd: u32, value: u32) -> Option<u32>
        requires { IsRegister rd }
        ensures { going result (from self.new pc)
            ≡ goes (from self.old pc) (Does (model.writing (from self.old pc) size rd value)) }
    {
        self.put(rd, value);
        Some(pc.wrapping_add(size))
    }

    // Goes to a target, with the address of the instruction after this one in rd, if an instruction can begin there.
    #[inline(always)]
    fn batch_jump(&mut self, size: u32, pc: u32, rd: u32, target: u32) -> Option<u32>
        requires { IsRegister rd }
        ensures { going result (from self.new pc)
            ≡ goes_plainly (from self.old pc) (model.jumping (from self.old pc) size rd target) }
    {
        if target % GRAIN != 0 {
            return None;
        }
        self.put(rd, pc.wrapping_add(size));
        Some(target)
    }

    // Goes to a target where the test on two registers holds; else on.
    #[inline(always)]
    fn batch_branch(&mut self, size: u32, pc: u32, taken: bool, target: u32) -> Option<u32>
        ensures { going result (from self.new pc)
            ≡ goes_plainly (from self.old pc)
            (if taken
            then model.jumping (from self.old pc) size 0 target
            else Does (model.going_on (from self.old pc) size)) }
    {
        if taken {
            self.batch_jump(size, pc, 0, target)
        } else {
            self.batch_write(size, pc, 0, 0)
        }
    }

    // Loads from RAM and goes on; where the address is misaligned or elsewhere, nothing is done.
    #[inline(always)]
    fn batch_load_as(
        &mut self,
        size: u32,
        pc: u32,
        op: LoadOp,
        rd: u32,
        rs1: u32,
        offset: u32,
    ) -> Option<u32>
        requires rd { IsRegister rd }
        requires rs1 { IsRegister rs1 }
        ensures { going result (from self.new pc)
            ≡ goes_plainly (from self.old pc)
            (model.loading (from self.old pc) None size op rd
            (sum (register self.old rs1) offset)) }
    {
        let address = self.register(rs1).wrapping_add(offset);
        let width = alu::load_width(op);
        if !self.has_aligned(address, width) {
            return None;
        }
        let value = self.ram.load(address, width);
        self.batch_write(size, pc, rd, alu::load_result(op, value))
    }

    // The same, with a body of its own for each operation, in which the compiler knows the width.
    #[inline(always)]
    fn batch_load(
        &mut self,
        size: u32,
        pc: u32,
        op: LoadOp,
        rd: u32,
        rs1: u32,
        offset: u32,
    ) -> Option<u32>
        requires rd { IsRegister rd }
        requires rs1 { IsRegister rs1 }
        ensures { going result (from self.new pc)
            ≡ goes_plainly (from self.old pc)
            (model.loading (from self.old pc) None size op rd
            (sum (register self.old rs1) offset)) }
    {
        match op {
            LoadOp::Lb => self.batch_load_as(size, pc, LoadOp::Lb, rd, rs1, offset),
            LoadOp::Lh => self.batch_load_as(size, pc, LoadOp::Lh, rd, rs1, offset),
            LoadOp::Lw => self.batch_load_as(size, pc, LoadOp::Lw, rd, rs1, offset),
            LoadOp::Lbu => self.batch_load_as(size, pc, LoadOp::Lbu, rd, rs1, offset),
            LoadOp::Lhu => self.batch_load_as(size, pc, LoadOp::Lhu, rd, rs1, offset),
        }
    }

    // Stores to RAM and goes on; where the address is misaligned or elsewhere, nothing is done.
    #[inline(always)]
    fn batch_store_as(
        &mut self,
        size: u32,
        pc: u32,
        op: StoreOp,
        rs2: u32,
        rs1: u32,
        offset: u32,
    ) -> Option<u32>
        requires rs2 { IsRegister rs2 }
        requires rs1 { IsRegister rs1 }
        ensures { going result (from self.new pc)
            ≡ goes_plainly (from self.old pc)
            (model.storing (from self.old pc) size op (register self.old rs2)
            (sum (register self.old rs1) offset)) }
    {
        let address = self.register(rs1).wrapping_add(offset);
        let width = alu::store_width(op);
        if !self.has_aligned(address, width) {
            return None;
        }
        let value = low_bytes(width, self.register(rs2));
        self.ram.store(address, width, value);
        self.batch_write(size, pc, 0, 0)
    }

    // The same, with a body of its own for each operation.
    #[inline(always)]
    fn batch_store(
        &mut self,
        size: u32,
        pc: u32,
        op: StoreOp,
        rs2: u32,
        rs1: u32,
        offset: u32,
    ) -> Option<u32>
        requires rs2 { IsRegister rs2 }
        requires rs1 { IsRegister rs1 }
        ensures { going result (from self.new pc)
            ≡ goes_plainly (from self.old pc)
            (model.storing (from self.old pc) size op (register self.old rs2)
            (sum (register self.old rs1) offset)) }
    {
        match op {
            StoreOp::Sb => self.batch_store_as(size, pc, StoreOp::Sb, rs2, rs1, offset),
            StoreOp::Sh => self.batch_store_as(size, pc, StoreOp::Sh, rs2, rs1, offset),
            StoreOp::Sw => self.batch_store_as(size, pc, StoreOp::Sw, rs2, rs1, offset),
        }
    }

    // Does a plain instruction at a pc, and answers where it goes on; for another one nothing is done. (Unprivileged manual,
    // chapters 2 and 7.)
    #[tactic(auto, unfolding(hart_model::specs::Step::outcome))]
    #[inline(always)]
    fn go(&mut self, size: u32, pc: u32, instr: Instr) -> Option<u32>
        requires { IsValid instr }
        ensures { going result (from self.new pc) ≡ goes_by (from self.old pc) size instr }
    {
        match instr {
            Instr::Lui { rd, imm } => self.batch_write(size, pc, rd, imm.cast_unsigned()),
            Instr::Auipc { rd, imm } => {
                self.batch_write(size, pc, rd, pc.wrapping_add(imm.cast_unsigned()))
            }
            Instr::Jal { rd, imm } => self.batch_jump(
                size,
                pc,
                rd,
                pc.wrapping_add(imm.cast_unsigned()),
            ),
            Instr::Jalr { rd, rs1, imm } => {
                let sum = self.register(rs1).wrapping_add(imm.cast_unsigned());
                self.batch_jump(size, pc, rd, sum - sum % 2)
            }
            Instr::Branch { op, rs1, rs2, imm } => {
                let taken = self.takes_branch(op, rs1, rs2);
                self.batch_branch(size, pc, taken, pc.wrapping_add(imm.cast_unsigned()))
            }
            Instr::Load { op, rd, rs1, imm } => {
                self.batch_load(size, pc, op, rd, rs1, imm.cast_unsigned())
            }
            Instr::Store { op, rs1, rs2, imm } => {
                self.batch_store(size, pc, op, rs2, rs1, imm.cast_unsigned())
            }
            Instr::OpImm { op, rd, rs1, imm } => {
                let value = self.immediate(op, rs1, imm.cast_unsigned());
                self.batch_write(size, pc, rd, value)
            }
            Instr::Op { op, rd, rs1, rs2 } => {
                let value = alu::register(op, self.register(rs1), self.register(rs2));
                self.batch_write(size, pc, rd, value)
            }
            _ => None,
        }
    }

    // Does the instruction at a pc where it is a plain one, and answers where it goes on; else nothing.
    #[inline(always)]
    fn go_from(&mut self, pc: u32) -> Option<u32>
        ensures { going result (from self.new pc)
            ≡ goes_fetched (from self.old pc) (fetched self.old.ram pc) }
    {
        if !self.ram.holds(pc, SIZE) {
            return None;
        }
        match decode(self.ram.load(pc, SIZE)) {
            Some(instr) => self.go(SIZE, pc, instr),
            None => None,
        }
    }

    /// Ends so many plain steps, of which the last one goes on at `pc`: sets the pc, and raises the counters.
    pub fn catch_up(&mut self, pc: u32, count: u32)
        requires { self.old.step + count ≤ MOST_STEPS }
        ensures { self.new ≡ caught_up count (from self.old pc) }
    {
        self.pc = pc;
        count_steps(&mut self.csrs, count);
        self.steps += count;
    }

    /// Does the next steps with these interrupt lines as long as they are plain ones, but at most so many, and answers
    /// how many it did.
    #[inline(never)]
    pub fn run_plain(&mut self, lines: u8, at_most: u32) -> u32
        requires { self.old.step + at_most ≤ MOST_STEPS }
        ensures few { result ≤ at_most }
        ensures plain { IsTrue (are_plain lines result self.old) }
        ensures state { plain_after lines result self.old ≡ self.new }
        ensures stops { result < at_most → is_plain self.new lines ≡ false }
    {
        if self.csrs.pending(lines).is_some() {
            return 0;
        }
        let mut pc = self.pc;
        let mut done = 0;
        'steps: while done < at_most {
            match self.go_from(pc) {
                Some(next) => {
                    pc = next;
                    done += 1;
                }
                None => break 'steps,
            }
        }
        self.catch_up(pc, done);
        done
    }
}
