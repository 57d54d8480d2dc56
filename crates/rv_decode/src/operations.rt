//! The operations that share a form.

/// A conditional branch. (Unprivileged manual, 2.5.)
#[derive(Clone, Copy, Debug, PartialEq, Eq)]
pub enum BranchOp {
    Beq,
    Bne,
    Blt,
    Bge,
    Bltu,
    Bgeu,
}

/// A load. (Unprivileged manual, 2.6.)
#[derive(Clone, Copy, Debug, PartialEq, Eq)]
pub enum LoadOp {
    Lb,
    Lh,
    Lw,
    Lbu,
    Lhu,
}

/// A store. (Unprivileged manual, 2.6.)
#[derive(Clone, Copy, Debug, PartialEq, Eq)]
pub enum StoreOp {
    Sb,
    Sh,
    Sw,
}

/// An operation on a register and an immediate. (Unprivileged manual, 2.4.)
#[derive(Clone, Copy, Debug, PartialEq, Eq)]
pub enum ImmOp {
    Addi,
    Slti,
    Sltiu,
    Xori,
    Ori,
    Andi,
    Slli,
    Srli,
    Srai,
}

/// An operation on two registers. (Unprivileged manual, 2.4 and 7.)
#[derive(Clone, Copy, Debug, PartialEq, Eq)]
pub enum RegOp {
    Add,
    Sll,
    Slt,
    Sltu,
    Xor,
    Srl,
    Or,
    And,
    Sub,
    Sra,
    Mul,
    Mulh,
    Mulhsu,
    Mulhu,
    Div,
    Divu,
    Rem,
    Remu,
}

/// A fence. (Unprivileged manual, 2.7 and 3.)
#[derive(Clone, Copy, Debug, PartialEq, Eq)]
pub enum FenceOp {
    Fence,
    FenceI,
}

/// An atomic access to a word. (Unprivileged manual, 8.)
#[derive(Clone, Copy, Debug, PartialEq, Eq)]
pub enum AtomicOp {
    Add,
    Swap,
    Lr,
    Sc,
    Xor,
    Or,
    And,
    Min,
    Max,
    Minu,
    Maxu,
}

/// An access to a control and status register. (Unprivileged manual, 9.1.)
#[derive(Clone, Copy, Debug, PartialEq, Eq)]
pub enum CsrOp {
    Csrrw,
    Csrrs,
    Csrrc,
    Csrrwi,
    Csrrsi,
    Csrrci,
}
