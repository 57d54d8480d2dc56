//! The instructions of the control and status registers, and MRET. (Unprivileged manual, chapter 9; Privileged manual,
//! 3.3.2.)
ghost use Rattle.std.specs.Prelude.{◌≡◌, Some};
ghost use Rattle.rv_csr.specs.Table.{written};
ghost use Rattle.rv_csr.specs.Traps.{left};
ghost use Rattle.rv_decode.specs.Valid.{IsRegister};
ghost use Rattle.hart_model.specs.Effect as model;
ghost use Rattle.hart_model.specs.Effect.{Does};
ghost use Rattle.hart_model.specs.Operations.{writes_csr};
ghost use Rattle.rv_cpu.specs.Midway.{at, midway};

use crate::alu;
use crate::done::Done;
use crate::engine::Engine;
use rv_csr::causes::ILLEGAL_INSTRUCTION;
use rv_decode::CsrOp;

impl Engine {
    // What a CSR instruction reads, 0 where it does not read; none where there is no such CSR.
    fn read_csr(&self, lines: u8, op: CsrOp, rd: u32, csr: u32) -> Option<u32>
        ensures { result ≡ model.csr_read self.now lines op rd csr }
    {
        if alu::reads_csr(op, rd) {
            self.csrs.read(csr, lines)
        } else {
            Some(0)
        }
    }

    // The operand of a CSR instruction: what a register holds, or the number in the register's place.
    fn csr_operand(&self, op: CsrOp, source: u32) -> u32
        requires { IsRegister source }
        ensures { result ≡ model.csr_operand self.now op source }
    {
        if alu::takes_register(op) {
            self.register(source)
        } else {
            source
        }
    }

    // Writes a CSR and, with what it held, rd; a CSR that may not be written is exception 2.
    fn write_csr(&mut self, size: u32, word: u32, rd: u32, old: u32, csr: u32, value: u32) -> Done
        requires { IsRegister rd }
        ensures { at size result self.new
            ≡ midway self.old
            (model.csr_kept self.old size word rd old (written self.old.csrs csr value)) }
    {
        match self.csrs.write(csr, value) {
            Some(()) => self.write(size, rd, old),
            None => Done::Raised {
                cause: ILLEGAL_INSTRUCTION,
                value: word,
            },
        }
    }

    // Writes a CSR if the instruction writes one, and rd.
    fn change_csr(
        &mut self,
        size: u32,
        op: CsrOp,
        word: u32,
        rd: u32,
        source: u32,
        csr: u32,
        old: u32,
    ) -> Done
        requires rd { IsRegister rd }
        requires source { IsRegister source }
        ensures { at size result self.new
            ≡ midway self.old (model.csr_write self.old size op word rd source csr (Some old)) }
    {
        if alu::writes_csr(op, source) {
            let operand = self.csr_operand(op, source);
            self.write_csr(size, word, rd, old, csr, alu::csr_result(op, old, operand))
        } else {
            self.write(size, rd, old)
        }
    }

    /// Does a CSR instruction. One that reads a CSR that is not there, or writes one that may not be written, is exception
    /// 2 with its word as the value. (9.1)
    pub fn do_csr(
        &mut self,
        lines: u8,
        size: u32,
        op: CsrOp,
        word: u32,
        rd: u32,
        source: u32,
        csr: u32,
    ) -> Done
        requires rd { IsRegister rd }
        requires source { IsRegister source }
        ensures { at size result self.new
            ≡ midway self.old (model.csr_of self.old lines size op word rd source csr) }
    {
        match self.read_csr(lines, op, rd, csr) {
            Some(old) => self.change_csr(size, op, word, rd, source, csr, old),
            None => Done::Raised {
                cause: ILLEGAL_INSTRUCTION,
                value: word,
            },
        }
    }

    /// MRET: leaves a trap.
    pub fn return_from_trap(&mut self, size: u32) -> Done
        ensures { at size result self.new
            ≡ midway self.old
            (Does (record (model.going_on self.old size)
            { next = self.old.csrs.mepc; csrs = left self.old.csrs })) }
    {
        let next = self.csrs.leave();
        Done::Quiet {
            result: self.put(0, 0),
            next,
        }
    }
}
