//! The function codes of the operations.
ghost use Rattle.std.specs.Prelude.{◌≡◌, ◌<◌};
ghost use Rattle.rv_decode.specs.Words.{branch_code, load_code, store_code, immediate_code, register_code, register_code7, fence_code, atomic_code, csr_code};

use crate::operations::{AtomicOp, BranchOp, CsrOp, FenceOp, ImmOp, LoadOp, RegOp, StoreOp};

/// The funct3 of a branch.
pub fn branch(op: BranchOp) -> u32
    ensures value { result ≡ branch_code op }
    ensures below { result < 8 }
{
    match op {
        BranchOp::Beq => 0,
        BranchOp::Bne => 1,
        BranchOp::Blt => 4,
        BranchOp::Bge => 5,
        BranchOp::Bltu => 6,
        BranchOp::Bgeu => 7,
    }
}

/// The funct3 of a load.
pub fn load(op: LoadOp) -> u32
    ensures value { result ≡ load_code op }
    ensures below { result < 8 }
{
    match op {
        LoadOp::Lb => 0,
        LoadOp::Lh => 1,
        LoadOp::Lw => 2,
        LoadOp::Lbu => 4,
        LoadOp::Lhu => 5,
    }
}

/// The funct3 of a store.
pub fn store(op: StoreOp) -> u32
    ensures value { result ≡ store_code op }
    ensures below { result < 8 }
{
    match op {
        StoreOp::Sb => 0,
        StoreOp::Sh => 1,
        StoreOp::Sw => 2,
    }
}

/// The funct3 of an operation on an immediate.
pub fn immediate(op: ImmOp) -> u32
    ensures value { result ≡ immediate_code op }
    ensures below { result < 8 }
{
    match op {
        ImmOp::Addi => 0,
        ImmOp::Slli => 1,
        ImmOp::Slti => 2,
        ImmOp::Sltiu => 3,
        ImmOp::Xori => 4,
        ImmOp::Srli | ImmOp::Srai => 5,
        ImmOp::Ori => 6,
        ImmOp::Andi => 7,
    }
}

/// The funct3 of an operation on registers.
pub fn register(op: RegOp) -> u32
    ensures value { result ≡ register_code op }
    ensures below { result < 8 }
{
    match op {
        RegOp::Add | RegOp::Sub | RegOp::Mul => 0,
        RegOp::Sll | RegOp::Mulh => 1,
        RegOp::Slt | RegOp::Mulhsu => 2,
        RegOp::Sltu | RegOp::Mulhu => 3,
        RegOp::Xor | RegOp::Div => 4,
        RegOp::Srl | RegOp::Sra | RegOp::Divu => 5,
        RegOp::Or | RegOp::Rem => 6,
        RegOp::And | RegOp::Remu => 7,
    }
}

/// The funct7 of an operation on registers.
pub fn register7(op: RegOp) -> u32
    ensures value { result ≡ register_code7 op }
    ensures below { result < 128 }
{
    match op {
        RegOp::Add | RegOp::Sll | RegOp::Slt | RegOp::Sltu => 0x00,
        RegOp::Xor | RegOp::Srl | RegOp::Or | RegOp::And => 0x00,
        RegOp::Sub | RegOp::Sra => 0x20,
        _ => 0x01,
    }
}

/// The funct3 of a fence.
pub fn fence(op: FenceOp) -> u32
    ensures value { result ≡ fence_code op }
    ensures below { result < 8 }
{
    match op {
        FenceOp::Fence => 0,
        FenceOp::FenceI => 1,
    }
}

/// The upper five bits of the funct7 of an atomic.
pub fn atomic(op: AtomicOp) -> u32
    ensures value { result ≡ atomic_code op }
    ensures below { result < 32 }
{
    match op {
        AtomicOp::Add => 0x00,
        AtomicOp::Swap => 0x01,
        AtomicOp::Lr => 0x02,
        AtomicOp::Sc => 0x03,
        AtomicOp::Xor => 0x04,
        AtomicOp::Or => 0x08,
        AtomicOp::And => 0x0c,
        AtomicOp::Min => 0x10,
        AtomicOp::Max => 0x14,
        AtomicOp::Minu => 0x18,
        AtomicOp::Maxu => 0x1c,
    }
}

/// The funct3 of a CSR instruction.
pub fn csr(op: CsrOp) -> u32
    ensures value { result ≡ csr_code op }
    ensures below { result < 8 }
{
    match op {
        CsrOp::Csrrw => 1,
        CsrOp::Csrrs => 2,
        CsrOp::Csrrc => 3,
        CsrOp::Csrrwi => 5,
        CsrOp::Csrrsi => 6,
        CsrOp::Csrrci => 7,
    }
}
