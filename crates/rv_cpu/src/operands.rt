//! What operations make of registers. Each case reads the registers by itself, so that the compiler goes from the word
//! of an instruction to its case in one jump. (Unprivileged manual, chapter 2.)
ghost use Rattle.std.specs.Prelude.{◌≡◌};
ghost use Rattle.rv_decode.specs.Valid.{IsRegister};
ghost use Rattle.hart_model.specs.Operations.{immediate_result, is_taken};
ghost use Rattle.hart_model.specs.State.{register};

use crate::alu;
use crate::engine::Engine;
use rv_decode::{BranchOp, ImmOp};

impl Engine {
    /// Whether a branch is taken, by its two registers. (2.5)
    #[inline(always)]
    pub fn takes_branch(&self, op: BranchOp, rs1: u32, rs2: u32) -> bool
        requires rs1 { IsRegister rs1 }
        requires rs2 { IsRegister rs2 }
        ensures { result ≡ is_taken op (register self.now rs1) (register self.now rs2) }
    {
        match op {
            BranchOp::Beq => self.register(rs1) == self.register(rs2),
            BranchOp::Bne => self.register(rs1) != self.register(rs2),
            BranchOp::Blt => alu::is_less_signed(self.register(rs1), self.register(rs2)),
            BranchOp::Bge => !alu::is_less_signed(self.register(rs1), self.register(rs2)),
            BranchOp::Bltu => self.register(rs1) < self.register(rs2),
            BranchOp::Bgeu => !(self.register(rs1) < self.register(rs2)),
        }
    }

    /// What an operation makes of a register and an immediate. (2.4)
    #[inline(always)]
    pub fn immediate(&self, op: ImmOp, rs1: u32, b: u32) -> u32
        requires { IsRegister rs1 }
        ensures { result ≡ immediate_result op (register self.now rs1) b }
    {
        match op {
            ImmOp::Addi => self.register(rs1).wrapping_add(b),
            ImmOp::Slti => alu::flag(alu::is_less_signed(self.register(rs1), b)),
            ImmOp::Sltiu => alu::flag(self.register(rs1) < b),
            ImmOp::Xori => self.register(rs1) ^ b,
            ImmOp::Ori => self.register(rs1) | b,
            ImmOp::Andi => self.register(rs1) & b,
            ImmOp::Slli => alu::shift_left(self.register(rs1), b),
            ImmOp::Srli => alu::shift_right(self.register(rs1), b),
            ImmOp::Srai => alu::shift_right_signed(self.register(rs1), b),
        }
    }
}
