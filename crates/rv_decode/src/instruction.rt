//! Instructions and their fields.
use crate::operations::{AtomicOp, BranchOp, CsrOp, FenceOp, ImmOp, LoadOp, RegOp, StoreOp};

/// An instruction and its fields, by its name in the manual; those that share a form have one variant, and `op` tells which
/// it is. `imm` is the immediate of the instruction's form, sign extended; in a shift by an immediate it is the rs2 field.
/// `order` holds the acquire and release bits, `source` the rs1 field of a CSR instruction, and `csr` its address.
#[derive(Clone, Copy, Debug, PartialEq, Eq)]
pub enum Instr {
    Lui {
        rd: u32,
        imm: i32,
    },
    Auipc {
        rd: u32,
        imm: i32,
    },
    Jal {
        rd: u32,
        imm: i32,
    },
    Jalr {
        rd: u32,
        rs1: u32,
        imm: i32,
    },
    Branch {
        op: BranchOp,
        rs1: u32,
        rs2: u32,
        imm: i32,
    },
    Load {
        op: LoadOp,
        rd: u32,
        rs1: u32,
        imm: i32,
    },
    Store {
        op: StoreOp,
        rs1: u32,
        rs2: u32,
        imm: i32,
    },
    OpImm {
        op: ImmOp,
        rd: u32,
        rs1: u32,
        imm: i32,
    },
    Op {
        op: RegOp,
        rd: u32,
        rs1: u32,
        rs2: u32,
    },
    Fence {
        op: FenceOp,
        rd: u32,
        rs1: u32,
        imm: i32,
    },
    Atomic {
        op: AtomicOp,
        rd: u32,
        rs1: u32,
        rs2: u32,
        order: u32,
    },
    Csr {
        op: CsrOp,
        rd: u32,
        source: u32,
        csr: u32,
    },
    Ecall,
    Ebreak,
    Mret,
    Wfi,
}
