//! From an instruction to a word.
ghost use Rattle.std.specs.Prelude.{◌≡◌};
ghost use Rattle.rv_decode.specs.Listing.{instruction};
ghost use Rattle.rv_decode.specs.Valid.{IsValid};
ghost use Rattle.rv_decode.specs.Words.{encoded};

use crate::codes;
use crate::instruction::Instr;
use crate::places::{
    joined_b, joined_i, joined_r, joined_s, joined_u, operand, upper_i, upper_j, upper_u,
};

/// The word that spells an instruction. (Unprivileged manual, 2.2, 2.3 and chapter 24.)
#[tactic(auto, using(crate::proofs::SpellingLaws::spelling))]
pub fn encode(i: Instr) -> u32
    requires { IsValid i }
    ensures word { result ≡ encoded i }
    ensures read { instruction result ≡ Some i }
{
    word_of(i)
}

// The word, a form at a time.
#[tactic(auto, unfolding(crate::specs::Words::encoded))]
fn word_of(i: Instr) -> u32
    requires { IsValid i }
    ensures { result ≡ encoded i }
{
    match i {
        Instr::Lui { rd, imm } => joined_u(0x37, rd, upper_u(imm)),
        Instr::Auipc { rd, imm } => joined_u(0x17, rd, upper_u(imm)),
        Instr::Jal { rd, imm } => joined_u(0x6f, rd, upper_j(imm)),
        Instr::Jalr { rd, rs1, imm } => joined_i(0x67, rd, 0, rs1, upper_i(imm)),
        Instr::Branch { op, rs1, rs2, imm } => joined_b(0x63, codes::branch(op), rs1, rs2, imm),
        Instr::Load { op, rd, rs1, imm } => joined_i(0x03, rd, codes::load(op), rs1, upper_i(imm)),
        Instr::Store { op, rs1, rs2, imm } => joined_s(0x23, codes::store(op), rs1, rs2, imm),
        Instr::OpImm { op, rd, rs1, imm } => {
            joined_i(0x13, rd, codes::immediate(op), rs1, operand(op, imm))
        }
        Instr::Op { op, rd, rs1, rs2 } => {
            let high = codes::register7(op);
            joined_r(0x33, rd, codes::register(op), rs1, rs2, high)
        }
        Instr::Fence { op, rd, rs1, imm } => joined_i(
            0x0f,
            rd,
            codes::fence(op),
            rs1,
            upper_i(imm),
        ),
        Instr::Atomic {
            op,
            rd,
            rs1,
            rs2,
            order,
        } => joined_r(0x2f, rd, 2, rs1, rs2, codes::atomic(op) * 4 + order),
        Instr::Csr {
            op,
            rd,
            source,
            csr,
        } => joined_i(0x73, rd, codes::csr(op), source, csr),
        Instr::Ecall => 0x0000_0073,
        Instr::Ebreak => 0x0010_0073,
        Instr::Mret => 0x3020_0073,
        Instr::Wfi => 0x1050_0073,
    }
}
