//! Plain steps: their instructions are no fences, no atomics and none of the privileged manual, raise no exception and
//! access no device.
ghost use Rattle.std.specs.Prelude.{◌≡◌, None};
ghost use Rattle.rv_decode.specs.Valid.{IsValid};
ghost use Rattle.hart_model.specs.Step.{outcome};
ghost use Rattle.rv_cpu.specs.Midway.{at, executed_plainly};

use crate::alu;
use crate::done::Done;
use crate::engine::Engine;
use rv_decode::Instr;

impl Engine {
    /// Does a plain instruction; of another one, nothing. (Unprivileged manual, chapters 2 and 7.)
    #[tactic(auto, unfolding(hart_model::specs::Step::outcome))]
    #[inline(always)]
    pub fn execute_plainly(&mut self, lines: u8, word: u32, size: u32, instr: Instr) -> Done
        requires { IsValid instr }
        ensures { at size result self.new
            ≡ executed_plainly self.old instr (outcome self.old lines None word size instr) }
    {
        match instr {
            Instr::Lui { rd, imm } => self.write(size, rd, imm.cast_unsigned()),
            Instr::Auipc { rd, imm } => {
                self.write(size, rd, self.pc.wrapping_add(imm.cast_unsigned()))
            }
            Instr::Jal { rd, imm } => {
                self.jump_plainly(size, rd, self.pc.wrapping_add(imm.cast_unsigned()))
            }
            Instr::Jalr { rd, rs1, imm } => {
                let sum = self.register(rs1).wrapping_add(imm.cast_unsigned());
                self.jump_plainly(size, rd, sum - sum % 2)
            }
            Instr::Branch { op, rs1, rs2, imm } => {
                let taken = self.takes_branch(op, rs1, rs2);
                self.branch_plainly(size, taken, self.pc.wrapping_add(imm.cast_unsigned()))
            }
            Instr::Load { op, rd, rs1, imm } => {
                self.load_plainly(size, op, rd, rs1, imm.cast_unsigned())
            }
            Instr::Store { op, rs1, rs2, imm } => {
                self.store_plainly(size, op, rs2, rs1, imm.cast_unsigned())
            }
            Instr::OpImm { op, rd, rs1, imm } => {
                self.write(size, rd, self.immediate(op, rs1, imm.cast_unsigned()))
            }
            Instr::Op { op, rd, rs1, rs2 } => {
                self.write(
                    size,
                    rd,
                    alu::register(op, self.register(rs1), self.register(rs2)),
                )
            }
            _ => Done::Other,
        }
    }
}
