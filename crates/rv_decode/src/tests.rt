//! Words that an assembler made, read and spelled.
use crate::{
    AtomicOp, BranchOp, CsrOp, FenceOp, ImmOp, Instr, LoadOp, RegOp, StoreOp, decode, encode,
    is_valid,
};

// Each instruction with fields of its own: the word, what an assembler takes for it, and what it reads. The script
// tools/assembled has the words assembled again, and compares.
const VECTORS: [(u32, &str, Instr); 70] = [
    (
        0xabcd_e2b7,
        "lui x5, 0xabcde",
        Instr::Lui {
            rd: 5,
            imm: -0x5432_2000,
        },
    ),
    (
        0x1234_5337,
        "lui x6, 0x12345",
        Instr::Lui {
            rd: 6,
            imm: 0x1234_5000,
        },
    ),
    (
        0x7fff_f397,
        "auipc x7, 0x7ffff",
        Instr::Auipc {
            rd: 7,
            imm: 0x7fff_f000,
        },
    ),
    (
        0xcdfa_b0ef,
        "jal x1, -0x54322",
        Instr::Jal {
            rd: 1,
            imm: -0x5_4322,
        },
    ),
    (
        0x1579_a1ef,
        "jal x3, 0x9a956",
        Instr::Jal {
            rd: 3,
            imm: 0x9_a956,
        },
    ),
    (
        0xaaa4_82e7,
        "jalr x5, -1366(x9)",
        Instr::Jalr {
            rd: 5,
            rs1: 9,
            imm: -1366,
        },
    ),
    (
        0xd555_0b63,
        "beq x10, x21, -2730",
        Instr::Branch {
            op: BranchOp::Beq,
            rs1: 10,
            rs2: 21,
            imm: -2730,
        },
    ),
    (
        0x54aa_9a63,
        "bne x21, x10, 1364",
        Instr::Branch {
            op: BranchOp::Bne,
            rs1: 21,
            rs2: 10,
            imm: 1364,
        },
    ),
    (
        0x2be0_c5e3,
        "blt x1, x30, 2730",
        Instr::Branch {
            op: BranchOp::Blt,
            rs1: 1,
            rs2: 30,
            imm: 2730,
        },
    ),
    (
        0xaa1f_55e3,
        "bge x30, x1, -1366",
        Instr::Branch {
            op: BranchOp::Bge,
            rs1: 30,
            rs2: 1,
            imm: -1366,
        },
    ),
    (
        0x8107_e063,
        "bltu x15, x16, -4096",
        Instr::Branch {
            op: BranchOp::Bltu,
            rs1: 15,
            rs2: 16,
            imm: -4096,
        },
    ),
    (
        0x7ef8_7fe3,
        "bgeu x16, x15, 4094",
        Instr::Branch {
            op: BranchOp::Bgeu,
            rs1: 16,
            rs2: 15,
            imm: 4094,
        },
    ),
    (
        0x800e_8103,
        "lb x2, -2048(x29)",
        Instr::Load {
            op: LoadOp::Lb,
            rd: 2,
            rs1: 29,
            imm: -2048,
        },
    ),
    (
        0x7ffe_1183,
        "lh x3, 2047(x28)",
        Instr::Load {
            op: LoadOp::Lh,
            rd: 3,
            rs1: 28,
            imm: 2047,
        },
    ),
    (
        0xfffd_a203,
        "lw x4, -1(x27)",
        Instr::Load {
            op: LoadOp::Lw,
            rd: 4,
            rs1: 27,
            imm: -1,
        },
    ),
    (
        0x555d_4283,
        "lbu x5, 1365(x26)",
        Instr::Load {
            op: LoadOp::Lbu,
            rd: 5,
            rs1: 26,
            imm: 1365,
        },
    ),
    (
        0xaaac_d303,
        "lhu x6, -1366(x25)",
        Instr::Load {
            op: LoadOp::Lhu,
            rd: 6,
            rs1: 25,
            imm: -1366,
        },
    ),
    (
        0x807c_0023,
        "sb x7, -2048(x24)",
        Instr::Store {
            op: StoreOp::Sb,
            rs1: 24,
            rs2: 7,
            imm: -2048,
        },
    ),
    (
        0x548b_9aa3,
        "sh x8, 1365(x23)",
        Instr::Store {
            op: StoreOp::Sh,
            rs1: 23,
            rs2: 8,
            imm: 1365,
        },
    ),
    (
        0xaa9b_2523,
        "sw x9, -1366(x22)",
        Instr::Store {
            op: StoreOp::Sw,
            rs1: 22,
            rs2: 9,
            imm: -1366,
        },
    ),
    (
        0x800a_8513,
        "addi x10, x21, -2048",
        Instr::OpImm {
            op: ImmOp::Addi,
            rd: 10,
            rs1: 21,
            imm: -2048,
        },
    ),
    (
        0x7ffa_2593,
        "slti x11, x20, 2047",
        Instr::OpImm {
            op: ImmOp::Slti,
            rd: 11,
            rs1: 20,
            imm: 2047,
        },
    ),
    (
        0xfff9_b613,
        "sltiu x12, x19, -1",
        Instr::OpImm {
            op: ImmOp::Sltiu,
            rd: 12,
            rs1: 19,
            imm: -1,
        },
    ),
    (
        0x5559_4693,
        "xori x13, x18, 1365",
        Instr::OpImm {
            op: ImmOp::Xori,
            rd: 13,
            rs1: 18,
            imm: 1365,
        },
    ),
    (
        0xaaa8_e713,
        "ori x14, x17, -1366",
        Instr::OpImm {
            op: ImmOp::Ori,
            rd: 14,
            rs1: 17,
            imm: -1366,
        },
    ),
    (
        0x0018_7793,
        "andi x15, x16, 1",
        Instr::OpImm {
            op: ImmOp::Andi,
            rd: 15,
            rs1: 16,
            imm: 1,
        },
    ),
    (
        0x01f7_9813,
        "slli x16, x15, 31",
        Instr::OpImm {
            op: ImmOp::Slli,
            rd: 16,
            rs1: 15,
            imm: 31,
        },
    ),
    (
        0x0017_5893,
        "srli x17, x14, 1",
        Instr::OpImm {
            op: ImmOp::Srli,
            rd: 17,
            rs1: 14,
            imm: 1,
        },
    ),
    (
        0x4156_d913,
        "srai x18, x13, 21",
        Instr::OpImm {
            op: ImmOp::Srai,
            rd: 18,
            rs1: 13,
            imm: 21,
        },
    ),
    (
        0x003f_80b3,
        "add x1, x31, x3",
        Instr::Op {
            op: RegOp::Add,
            rd: 1,
            rs1: 31,
            rs2: 3,
        },
    ),
    (
        0x00af_1133,
        "sll x2, x30, x10",
        Instr::Op {
            op: RegOp::Sll,
            rd: 2,
            rs1: 30,
            rs2: 10,
        },
    ),
    (
        0x011e_a1b3,
        "slt x3, x29, x17",
        Instr::Op {
            op: RegOp::Slt,
            rd: 3,
            rs1: 29,
            rs2: 17,
        },
    ),
    (
        0x018e_3233,
        "sltu x4, x28, x24",
        Instr::Op {
            op: RegOp::Sltu,
            rd: 4,
            rs1: 28,
            rs2: 24,
        },
    ),
    (
        0x01fd_c2b3,
        "xor x5, x27, x31",
        Instr::Op {
            op: RegOp::Xor,
            rd: 5,
            rs1: 27,
            rs2: 31,
        },
    ),
    (
        0x006d_5333,
        "srl x6, x26, x6",
        Instr::Op {
            op: RegOp::Srl,
            rd: 6,
            rs1: 26,
            rs2: 6,
        },
    ),
    (
        0x00dc_e3b3,
        "or x7, x25, x13",
        Instr::Op {
            op: RegOp::Or,
            rd: 7,
            rs1: 25,
            rs2: 13,
        },
    ),
    (
        0x014c_7433,
        "and x8, x24, x20",
        Instr::Op {
            op: RegOp::And,
            rd: 8,
            rs1: 24,
            rs2: 20,
        },
    ),
    (
        0x41bb_84b3,
        "sub x9, x23, x27",
        Instr::Op {
            op: RegOp::Sub,
            rd: 9,
            rs1: 23,
            rs2: 27,
        },
    ),
    (
        0x402b_5533,
        "sra x10, x22, x2",
        Instr::Op {
            op: RegOp::Sra,
            rd: 10,
            rs1: 22,
            rs2: 2,
        },
    ),
    (
        0x029a_85b3,
        "mul x11, x21, x9",
        Instr::Op {
            op: RegOp::Mul,
            rd: 11,
            rs1: 21,
            rs2: 9,
        },
    ),
    (
        0x030a_1633,
        "mulh x12, x20, x16",
        Instr::Op {
            op: RegOp::Mulh,
            rd: 12,
            rs1: 20,
            rs2: 16,
        },
    ),
    (
        0x0379_a6b3,
        "mulhsu x13, x19, x23",
        Instr::Op {
            op: RegOp::Mulhsu,
            rd: 13,
            rs1: 19,
            rs2: 23,
        },
    ),
    (
        0x03e9_3733,
        "mulhu x14, x18, x30",
        Instr::Op {
            op: RegOp::Mulhu,
            rd: 14,
            rs1: 18,
            rs2: 30,
        },
    ),
    (
        0x0258_c7b3,
        "div x15, x17, x5",
        Instr::Op {
            op: RegOp::Div,
            rd: 15,
            rs1: 17,
            rs2: 5,
        },
    ),
    (
        0x02c8_5833,
        "divu x16, x16, x12",
        Instr::Op {
            op: RegOp::Divu,
            rd: 16,
            rs1: 16,
            rs2: 12,
        },
    ),
    (
        0x0337_e8b3,
        "rem x17, x15, x19",
        Instr::Op {
            op: RegOp::Rem,
            rd: 17,
            rs1: 15,
            rs2: 19,
        },
    ),
    (
        0x03a7_7933,
        "remu x18, x14, x26",
        Instr::Op {
            op: RegOp::Remu,
            rd: 18,
            rs1: 14,
            rs2: 26,
        },
    ),
    (
        0x0310_000f,
        "fence rw, w",
        Instr::Fence {
            op: FenceOp::Fence,
            rd: 0,
            rs1: 0,
            imm: 0x31,
        },
    ),
    (
        0x0000_100f,
        "fence.i",
        Instr::Fence {
            op: FenceOp::FenceI,
            rd: 0,
            rs1: 0,
            imm: 0,
        },
    ),
    (
        0x100f_262f,
        "lr.w x12, (x30)",
        Instr::Atomic {
            op: AtomicOp::Lr,
            rd: 12,
            rs1: 30,
            rs2: 0,
            order: 0,
        },
    ),
    (
        0x1a7e_a6af,
        "sc.w.rl x13, x7, (x29)",
        Instr::Atomic {
            op: AtomicOp::Sc,
            rd: 13,
            rs1: 29,
            rs2: 7,
            order: 1,
        },
    ),
    (
        0x0cce_272f,
        "amoswap.w.aq x14, x12, (x28)",
        Instr::Atomic {
            op: AtomicOp::Swap,
            rd: 14,
            rs1: 28,
            rs2: 12,
            order: 2,
        },
    ),
    (
        0x071d_a7af,
        "amoadd.w.aqrl x15, x17, (x27)",
        Instr::Atomic {
            op: AtomicOp::Add,
            rd: 15,
            rs1: 27,
            rs2: 17,
            order: 3,
        },
    ),
    (
        0x216d_282f,
        "amoxor.w x16, x22, (x26)",
        Instr::Atomic {
            op: AtomicOp::Xor,
            rd: 16,
            rs1: 26,
            rs2: 22,
            order: 0,
        },
    ),
    (
        0x43bc_a8af,
        "amoor.w.rl x17, x27, (x25)",
        Instr::Atomic {
            op: AtomicOp::Or,
            rd: 17,
            rs1: 25,
            rs2: 27,
            order: 1,
        },
    ),
    (
        0x640c_292f,
        "amoand.w.aq x18, x0, (x24)",
        Instr::Atomic {
            op: AtomicOp::And,
            rd: 18,
            rs1: 24,
            rs2: 0,
            order: 2,
        },
    ),
    (
        0x865b_a9af,
        "amomin.w.aqrl x19, x5, (x23)",
        Instr::Atomic {
            op: AtomicOp::Min,
            rd: 19,
            rs1: 23,
            rs2: 5,
            order: 3,
        },
    ),
    (
        0xa0ab_2a2f,
        "amomax.w x20, x10, (x22)",
        Instr::Atomic {
            op: AtomicOp::Max,
            rd: 20,
            rs1: 22,
            rs2: 10,
            order: 0,
        },
    ),
    (
        0xc2fa_aaaf,
        "amominu.w.rl x21, x15, (x21)",
        Instr::Atomic {
            op: AtomicOp::Minu,
            rd: 21,
            rs1: 21,
            rs2: 15,
            order: 1,
        },
    ),
    (
        0xe54a_2b2f,
        "amomaxu.w.aq x22, x20, (x20)",
        Instr::Atomic {
            op: AtomicOp::Maxu,
            rd: 22,
            rs1: 20,
            rs2: 20,
            order: 2,
        },
    ),
    (
        0x341f_90f3,
        "csrrw x1, 0x341, x31",
        Instr::Csr {
            op: CsrOp::Csrrw,
            rd: 1,
            source: 31,
            csr: 0x341,
        },
    ),
    (
        0xc81f_2173,
        "csrrs x2, 0xc81, x30",
        Instr::Csr {
            op: CsrOp::Csrrs,
            rd: 2,
            source: 30,
            csr: 0xc81,
        },
    ),
    (
        0x7a5e_b273,
        "csrrc x4, 0x7a5, x29",
        Instr::Csr {
            op: CsrOp::Csrrc,
            rd: 4,
            source: 29,
            csr: 0x7a5,
        },
    ),
    (
        0x3008_d473,
        "csrrwi x8, 0x300, 17",
        Instr::Csr {
            op: CsrOp::Csrrwi,
            rd: 8,
            source: 17,
            csr: 0x300,
        },
    ),
    (
        0xf144_6873,
        "csrrsi x16, 0xf14, 8",
        Instr::Csr {
            op: CsrOp::Csrrsi,
            rd: 16,
            source: 8,
            csr: 0xf14,
        },
    ),
    (
        0xb80a_fff3,
        "csrrci x31, 0xb80, 21",
        Instr::Csr {
            op: CsrOp::Csrrci,
            rd: 31,
            source: 21,
            csr: 0xb80,
        },
    ),
    (0x0000_0073, "ecall", Instr::Ecall),
    (0x0010_0073, "ebreak", Instr::Ebreak),
    (0x3020_0073, "mret", Instr::Mret),
    (0x1050_0073, "wfi", Instr::Wfi),
];

#[test]
fn words_and_instructions_give_each_other(rt: HostRuntime) {
    for (word, text, i) in VECTORS {
        assert_eq!(rt; decode(word), Some(i), "{text}");
        assert!(rt; is_valid(i), "{text}");
        assert_eq!(rt; encode(i), word, "{text}");
    }
}

// Whether a word with these function fields can be an instruction, by the manual's listing.
fn is_listed(opcode: u32, funct3: u32, funct7: u32) -> bool {
    match opcode {
        0x37 | 0x17 | 0x6f => true,
        0x67 => funct3 == 0,
        0x63 => funct3 != 2 && funct3 != 3,
        0x03 => funct3 != 3 && funct3 < 6,
        0x23 => funct3 < 3,
        0x13 => funct3 % 4 != 1 || funct7 == 0 || (funct3 == 5 && funct7 == 0x20),
        0x33 => funct7 < 2 || (funct7 == 0x20 && (funct3 == 0 || funct3 == 5)),
        0x0f => funct3 < 2,
        0x2f => funct3 == 2 && (funct7 < 16 || funct7 % 16 < 4),
        0x73 => funct3 != 4 && (funct3 > 0 || funct7 == 0 || funct7 == 0x08 || funct7 == 0x18),
        _ => false,
    }
}

// Whether a word is no instruction, if its codes have no row, whatever its registers are.
fn is_refused(word: u32) -> bool {
    let others = word | 0x01ff_8f80;
    is_listed(word & 127, word >> 12 & 7, word >> 25)
        || (decode(word).is_none() && decode(others).is_none())
}

// Each code is an opcode, above it three bits of funct3, above those seven of funct7.
#[test]
fn codes_without_a_row_are_no_instruction(rt: HostRuntime) {
    for code in 0..0x2_0000u32 {
        let word = (code & 127) + (code >> 7 & 7) * 0x1000 + (code >> 10) * 0x200_0000;
        assert!(rt; is_refused(word), "{word:08x}");
    }
}
