//! Every instruction.
ghost use Rattle.std.specs.Prelude.{◌≡◌};
ghost use Rattle.rv_decode.specs.Valid.{IsValid};
ghost use Rattle.hart_model.specs.Step.{outcome};
ghost use Rattle.rv_cpu.specs.Midway.{at, midway};

use crate::alu;
use crate::done::Done;
use crate::engine::Engine;
use run_events::Supplied;
use rv_csr::causes::{BREAKPOINT, MACHINE_CALL};
use rv_decode::Instr;

impl Engine {
    /// Does an instruction, up to what `Done` tells. (Unprivileged manual, chapters 2, 3, 7, 8 and 9; Privileged manual,
    /// 3.3.)
    #[tactic(auto, unfolding(hart_model::specs::Step::outcome))]
    pub fn execute(
        &mut self,
        lines: u8,
        supplied: Option<Supplied>,
        word: u32,
        size: u32,
        instr: Instr,
    ) -> Done
        requires { IsValid instr }
        ensures { at size result self.new
            ≡ midway self.old (outcome self.old lines supplied word size instr) }
    {
        match instr {
            Instr::Lui { rd, imm } => self.write(size, rd, imm.cast_unsigned()),
            Instr::Auipc { rd, imm } => {
                self.write(size, rd, self.pc.wrapping_add(imm.cast_unsigned()))
            }
            Instr::Jal { rd, imm } => {
                self.jump(size, rd, self.pc.wrapping_add(imm.cast_unsigned()))
            }
            Instr::Jalr { rd, rs1, imm } => {
                let sum = self.register(rs1).wrapping_add(imm.cast_unsigned());
                self.jump(size, rd, sum - sum % 2)
            }
            Instr::Branch { op, rs1, rs2, imm } => {
                let taken = self.takes_branch(op, rs1, rs2);
                self.branch(size, taken, self.pc.wrapping_add(imm.cast_unsigned()))
            }
            Instr::Load { op, rd, rs1, imm } => {
                self.load(supplied, size, op, rd, rs1, imm.cast_unsigned())
            }
            Instr::Store { op, rs1, rs2, imm } => {
                self.store(size, op, rs2, rs1, imm.cast_unsigned())
            }
            Instr::OpImm { op, rd, rs1, imm } => {
                self.write(size, rd, self.immediate(op, rs1, imm.cast_unsigned()))
            }
            Instr::Op { op, rd, rs1, rs2 } => {
                self.write(
                    size,
                    rd,
                    alu::register(op, self.register(rs1), self.register(rs2)),
                )
            }
            Instr::Fence { .. } | Instr::Wfi => self.go_on(size),
            Instr::Atomic {
                op,
                rd,
                rs1,
                rs2,
                ..
            } => {
                let (value, address) = (self.register(rs2), self.register(rs1));
                self.do_atomic(size, op, rd, value, address)
            }
            Instr::Csr {
                op,
                rd,
                source,
                csr,
            } => self.do_csr(lines, size, op, word, rd, source, csr),
            Instr::Ecall => Done::Raised {
                cause: MACHINE_CALL,
                value: 0,
            },
            Instr::Ebreak => Done::Raised {
                cause: BREAKPOINT,
                value: 0,
            },
            Instr::Mret => self.return_from_trap(size),
        }
    }
}
