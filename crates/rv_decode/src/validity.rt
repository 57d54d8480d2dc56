//! Which instructions have a word.
ghost use Rattle.std.specs.Prelude.{◌↔◌, ◌<◌, ◌^◌, IsTrue};
ghost use Rattle.rv_decode.specs.Valid.{IsRegister, IsSigned, IsMultiple, IsOperand, IsSecond, IsValid};

use crate::instruction::Instr;
use crate::operations::{AtomicOp, ImmOp};

// Whether a register has this number.
fn is_register(number: u32) -> bool
    ensures { IsTrue result ↔ IsRegister number }
{
    number < 32
}

// Whether registers have these numbers.
fn are_registers(first: u32, second: u32) -> bool
    ensures { IsTrue result ↔ IsRegister first × IsRegister second }
{
    is_register(first) && is_register(second)
}

// Whether a number fits into 12 bits with a sign.
fn is_signed_12(imm: i32) -> bool
    ensures { IsTrue result ↔ IsSigned 12 imm }
{
    -0x800 <= imm && imm < 0x800
}

// Whether a number is a multiple of `n`.
fn is_multiple(n: u32, imm: i32) -> bool
    requires { 0 < n }
    ensures { IsTrue result ↔ IsMultiple n imm }
{
    imm.unsigned_abs() % n == 0
}

// Whether form U can spell an immediate.
fn is_upper(imm: i32) -> bool
    ensures { IsTrue result ↔ IsSigned 32 imm × IsMultiple (2 ^ 12) imm }
{
    is_multiple(0x1000, imm)
}

// Whether form B can spell an immediate.
fn is_branch_offset(imm: i32) -> bool
    ensures { IsTrue result ↔ IsSigned 13 imm × IsMultiple 2 imm }
{
    -0x1000 <= imm && imm < 0x1000 && is_multiple(2, imm)
}

// Whether form J can spell an immediate.
fn is_jump_offset(imm: i32) -> bool
    ensures { IsTrue result ↔ IsSigned 21 imm × IsMultiple 2 imm }
{
    -0x10_0000 <= imm && imm < 0x10_0000 && is_multiple(2, imm)
}

// Whether an operation on an immediate can take this one.
fn is_operand(op: ImmOp, imm: i32) -> bool
    ensures { IsTrue result ↔ IsOperand op imm }
{
    match op {
        ImmOp::Slli | ImmOp::Srli | ImmOp::Srai => 0 <= imm && imm < 32,
        _ => is_signed_12(imm),
    }
}

// Whether an atomic can have this number in the place of rs2: LR has 0 there.
fn is_second(op: AtomicOp, number: u32) -> bool
    ensures { IsTrue result ↔ IsSecond op number }
{
    match op {
        AtomicOp::Lr => number == 0,
        _ => is_register(number),
    }
}

/// Whether each field of an instruction fits its place, so that a word spells it. (Unprivileged manual, 2.2 and 2.3.)
pub fn is_valid(i: Instr) -> bool
    ensures { IsTrue result ↔ IsValid i }
{
    match i {
        Instr::Lui { rd, imm } => is_register(rd) && is_upper(imm),
        Instr::Auipc { rd, imm } => is_register(rd) && is_upper(imm),
        Instr::Jal { rd, imm } => is_register(rd) && is_jump_offset(imm),
        Instr::Jalr { rd, rs1, imm } => are_registers(rd, rs1) && is_signed_12(imm),
        Instr::Branch { rs1, rs2, imm, .. } => are_registers(rs1, rs2) && is_branch_offset(imm),
        Instr::Load { rd, rs1, imm, .. } => are_registers(rd, rs1) && is_signed_12(imm),
        Instr::Store { rs1, rs2, imm, .. } => are_registers(rs1, rs2) && is_signed_12(imm),
        Instr::OpImm { op, rd, rs1, imm } => are_registers(rd, rs1) && is_operand(op, imm),
        Instr::Op { rd, rs1, rs2, .. } => are_registers(rd, rs1) && is_register(rs2),
        Instr::Fence { rd, rs1, imm, .. } => are_registers(rd, rs1) && is_signed_12(imm),
        Instr::Atomic {
            op,
            rd,
            rs1,
            rs2,
            order,
        } => are_registers(rd, rs1) && is_second(op, rs2) && order < 4,
        Instr::Csr {
            op: _,
            rd,
            source,
            csr,
        } => are_registers(rd, source) && csr < 4096,
        Instr::Ecall | Instr::Ebreak | Instr::Mret | Instr::Wfi => true,
    }
}
