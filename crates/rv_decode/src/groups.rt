//! The instructions of each opcode, and none where a word of the opcode spells none. (Unprivileged manual, chapter 24.)
ghost use Rattle.std.specs.Prelude.{◌≡◌, ◌⊎◌, ◌++◌};
ghost use Rattle.rv_decode.specs.Fields.{opcode_of, funct3_of};
ghost use Rattle.rv_decode.specs.Listing.{read_by, jalrs, branches, loads, stores, immediates, registers, fences, atomics, csrs, bares};
ghost use Rattle.rv_decode.specs.Listing.{load as load_row, store as store_row, register as register_row, fence as fence_row, atomic as atomic_row, csr as csr_row};

use crate::fields::{funct3, imm_b, imm_i, imm_s, rd, rs1, rs2};
use crate::instruction::Instr;
use crate::operations::{AtomicOp, BranchOp, CsrOp, FenceOp, ImmOp, LoadOp, RegOp, StoreOp};

/// What a word of the opcode 0x67 spells: JALR.
#[inline(always)]
pub fn jalr(word: u32) -> Option<Instr>
    requires { opcode_of word ≡ 0x67 }
    ensures { result ≡ read_by jalrs word }
{
    match funct3(word) {
        0 => Some(Instr::Jalr {
            rd: rd(word),
            rs1: rs1(word),
            imm: imm_i(word),
        }),
        _ => None,
    }
}

/// What a word of the opcode 0x63 spells: the branches.
#[inline(always)]
pub fn branch(word: u32) -> Option<Instr>
    requires { opcode_of word ≡ 0x63 }
    ensures { result ≡ read_by branches word }
{
    let (rs1, rs2, imm) = (rs1(word), rs2(word), imm_b(word));
    let op = match funct3(word) {
        0 => BranchOp::Beq,
        1 => BranchOp::Bne,
        4 => BranchOp::Blt,
        5 => BranchOp::Bge,
        6 => BranchOp::Bltu,
        7 => BranchOp::Bgeu,
        _ => return None,
    };
    Some(Instr::Branch { op, rs1, rs2, imm })
}

// The load of a word, with this operation.
#[inline(always)]
fn load_of(op: LoadOp, word: u32) -> Instr
    ensures { result ≡ load_row op word }
{
    Instr::Load {
        op,
        rd: rd(word),
        rs1: rs1(word),
        imm: imm_i(word),
    }
}

/// What a word of the opcode 0x03 spells: the loads.
#[inline(always)]
pub fn load(word: u32) -> Option<Instr>
    requires { opcode_of word ≡ 0x03 }
    ensures { result ≡ read_by loads word }
{
    let op = match funct3(word) {
        0 => LoadOp::Lb,
        1 => LoadOp::Lh,
        2 => LoadOp::Lw,
        4 => LoadOp::Lbu,
        5 => LoadOp::Lhu,
        _ => return None,
    };
    Some(load_of(op, word))
}

// The store of a word, with this operation.
#[inline(always)]
fn store_of(op: StoreOp, word: u32) -> Instr
    ensures { result ≡ store_row op word }
{
    Instr::Store {
        op,
        rs1: rs1(word),
        rs2: rs2(word),
        imm: imm_s(word),
    }
}

/// What a word of the opcode 0x23 spells: the stores.
#[inline(always)]
pub fn store(word: u32) -> Option<Instr>
    requires { opcode_of word ≡ 0x23 }
    ensures { result ≡ read_by stores word }
{
    let op = match funct3(word) {
        0 => StoreOp::Sb,
        1 => StoreOp::Sh,
        2 => StoreOp::Sw,
        _ => return None,
    };
    Some(store_of(op, word))
}

// What a word with the opcode and the funct3 of a shift by an immediate spells.
#[inline(always)]
fn shift(word: u32) -> Option<Instr>
    requires opcode { opcode_of word ≡ 0x13 }
    requires shifts { (funct3_of word ≡ 1) ⊎ (funct3_of word ≡ 5) }
    ensures { result ≡ read_by immediates word }
{
    let (rd, rs1, imm) = (rd(word), rs1(word), rs2(word).cast_signed());
    let op = match (funct3(word), word >> 25) {
        (1, 0x00) => ImmOp::Slli,
        (5, 0x00) => ImmOp::Srli,
        (5, 0x20) => ImmOp::Srai,
        _ => return None,
    };
    Some(Instr::OpImm { op, rd, rs1, imm })
}

/// What a word of the opcode 0x13 spells: the operations on an immediate.
#[inline(always)]
pub fn immediate(word: u32) -> Option<Instr>
    requires { opcode_of word ≡ 0x13 }
    ensures { result ≡ read_by immediates word }
{
    let (rd, rs1, imm) = (rd(word), rs1(word), imm_i(word));
    let op = match funct3(word) {
        0 => ImmOp::Addi,
        2 => ImmOp::Slti,
        3 => ImmOp::Sltiu,
        4 => ImmOp::Xori,
        6 => ImmOp::Ori,
        7 => ImmOp::Andi,
        _ => return shift(word),
    };
    Some(Instr::OpImm { op, rd, rs1, imm })
}

// The operation on registers of a word, with this operation.
#[inline(always)]
fn register_of(op: RegOp, word: u32) -> Instr
    ensures { result ≡ register_row op word }
{
    Instr::Op {
        op,
        rd: rd(word),
        rs1: rs1(word),
        rs2: rs2(word),
    }
}

/// What a word of the opcode 0x33 spells: the operations on registers.
#[inline(always)]
pub fn register(word: u32) -> Option<Instr>
    requires { opcode_of word ≡ 0x33 }
    ensures { result ≡ read_by registers word }
{
    let op = match (word >> 25, funct3(word)) {
        (0x00, 0) => RegOp::Add,
        (0x00, 1) => RegOp::Sll,
        (0x00, 2) => RegOp::Slt,
        (0x00, 3) => RegOp::Sltu,
        (0x00, 4) => RegOp::Xor,
        (0x00, 5) => RegOp::Srl,
        (0x00, 6) => RegOp::Or,
        (0x00, 7) => RegOp::And,
        (0x20, 0) => RegOp::Sub,
        (0x20, 5) => RegOp::Sra,
        (0x01, 0) => RegOp::Mul,
        (0x01, 1) => RegOp::Mulh,
        (0x01, 2) => RegOp::Mulhsu,
        (0x01, 3) => RegOp::Mulhu,
        (0x01, 4) => RegOp::Div,
        (0x01, 5) => RegOp::Divu,
        (0x01, 6) => RegOp::Rem,
        (0x01, 7) => RegOp::Remu,
        _ => return None,
    };
    Some(register_of(op, word))
}

// The fence of a word, with this operation.
#[inline(always)]
fn fence_of(op: FenceOp, word: u32) -> Instr
    ensures { result ≡ fence_row op word }
{
    Instr::Fence {
        op,
        rd: rd(word),
        rs1: rs1(word),
        imm: imm_i(word),
    }
}

/// What a word of the opcode 0x0f spells: FENCE and FENCE.I.
#[inline(always)]
pub fn fence(word: u32) -> Option<Instr>
    requires { opcode_of word ≡ 0x0f }
    ensures { result ≡ read_by fences word }
{
    match funct3(word) {
        0 => Some(fence_of(FenceOp::Fence, word)),
        1 => Some(fence_of(FenceOp::FenceI, word)),
        _ => None,
    }
}

// The atomic of a word, with this operation.
#[inline(always)]
fn atomic_of(op: AtomicOp, word: u32) -> Instr
    ensures { result ≡ atomic_row op word }
{
    Instr::Atomic {
        op,
        rd: rd(word),
        rs1: rs1(word),
        rs2: rs2(word),
        order: word >> 25 & 3,
    }
}

/// What a word of the opcode 0x2f spells: the atomics, all of which are on words.
#[inline(always)]
pub fn atomic(word: u32) -> Option<Instr>
    requires { opcode_of word ≡ 0x2f }
    ensures { result ≡ read_by atomics word }
{
    if funct3(word) != 2 {
        return None;
    }
    let op = match (word >> 27, rs2(word)) {
        (0x00, _) => AtomicOp::Add,
        (0x01, _) => AtomicOp::Swap,
        (0x02, 0) => AtomicOp::Lr,
        (0x03, _) => AtomicOp::Sc,
        (0x04, _) => AtomicOp::Xor,
        (0x08, _) => AtomicOp::Or,
        (0x0c, _) => AtomicOp::And,
        (0x10, _) => AtomicOp::Min,
        (0x14, _) => AtomicOp::Max,
        (0x18, _) => AtomicOp::Minu,
        (0x1c, _) => AtomicOp::Maxu,
        _ => return None,
    };
    Some(atomic_of(op, word))
}

// The CSR instruction of a word, with this operation.
#[inline(always)]
fn csr_of(op: CsrOp, word: u32) -> Instr
    ensures { result ≡ csr_row op word }
{
    Instr::Csr {
        op,
        rd: rd(word),
        source: rs1(word),
        csr: word >> 20,
    }
}

// What a word without operands spells.
#[inline(always)]
fn bare(word: u32) -> Option<Instr>
    requires { opcode_of word ≡ 0x73 }
    ensures { result ≡ read_by bares word }
{
    match word {
        0x0000_0073 => Some(Instr::Ecall),
        0x0010_0073 => Some(Instr::Ebreak),
        0x3020_0073 => Some(Instr::Mret),
        0x1050_0073 => Some(Instr::Wfi),
        _ => None,
    }
}

/// What a word of the opcode 0x73 spells: the CSR instructions, ECALL, EBREAK, MRET and WFI.
#[inline(always)]
pub fn system(word: u32) -> Option<Instr>
    requires { opcode_of word ≡ 0x73 }
    ensures { result ≡ read_by (csrs ++ bares) word }
{
    let op = match funct3(word) {
        1 => CsrOp::Csrrw,
        2 => CsrOp::Csrrs,
        3 => CsrOp::Csrrc,
        5 => CsrOp::Csrrwi,
        6 => CsrOp::Csrrsi,
        7 => CsrOp::Csrrci,
        _ => return bare(word),
    };
    Some(csr_of(op, word))
}
