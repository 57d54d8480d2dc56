//! The fields of a word and the parts of an immediate, in their places.
ghost use Rattle.std.specs.Prelude.{◌≡◌, ◌+◌, ◌<◌, ◌^◌};
ghost use Rattle.rv_decode.specs.Valid.{IsOperand};
ghost use Rattle.rv_decode.specs.Words.{joined as joined_word, joined_i as joined_word_i, joined_u as joined_word_u, bits_of, places_i, places_u, places_j, low_s as low_s_of, high_s as high_s_of, low_b as low_b_of, high_b as high_b_of, immediate_extra};

use crate::operations::ImmOp;

/// The word of these fields.
pub fn joined_r(opcode: u32, rd: u32, funct3: u32, rs1: u32, rs2: u32, funct7: u32) -> u32
    requires opcode { opcode < 2 ^ 7 }
    requires rd { rd < 2 ^ 5 }
    requires funct3 { funct3 < 2 ^ 3 }
    requires rs1 { rs1 < 2 ^ 5 }
    requires rs2 { rs2 < 2 ^ 5 }
    requires funct7 { funct7 < 2 ^ 7 }
    ensures { result ≡ joined_word opcode rd funct3 rs1 rs2 funct7 }
{
    opcode + rd * 0x80 + funct3 * 0x1000 + rs1 * 0x8000 + rs2 * 0x10_0000 + funct7 * 0x200_0000
}

/// The word of these fields, the upper twelve bits as one.
pub fn joined_i(opcode: u32, rd: u32, funct3: u32, rs1: u32, funct12: u32) -> u32
    requires opcode { opcode < 2 ^ 7 }
    requires rd { rd < 2 ^ 5 }
    requires funct3 { funct3 < 2 ^ 3 }
    requires rs1 { rs1 < 2 ^ 5 }
    requires funct12 { funct12 < 2 ^ 12 }
    ensures { result ≡ joined_word_i opcode rd funct3 rs1 funct12 }
{
    opcode + rd * 0x80 + funct3 * 0x1000 + rs1 * 0x8000 + funct12 * 0x10_0000
}

/// The word of these fields, the upper twenty bits as one.
pub fn joined_u(opcode: u32, rd: u32, upper: u32) -> u32
    requires opcode { opcode < 2 ^ 7 }
    requires rd { rd < 2 ^ 5 }
    requires upper { upper < 2 ^ 20 }
    ensures { result ≡ joined_word_u opcode rd upper }
{
    opcode + rd * 0x80 + upper * 0x1000
}

/// The word of form S with this opcode.
pub fn joined_s(opcode: u32, funct3: u32, rs1: u32, rs2: u32, imm: i32) -> u32
    requires opcode { opcode < 2 ^ 7 }
    requires funct3 { funct3 < 2 ^ 3 }
    requires rs1 { rs1 < 2 ^ 5 }
    requires rs2 { rs2 < 2 ^ 5 }
    ensures { result ≡ joined_word opcode (low_s_of (bits_of imm)) funct3 rs1 rs2
        (high_s_of (bits_of imm)) }
{
    joined_r(opcode, low_s(imm), funct3, rs1, rs2, high_s(imm))
}

/// The word of form B with this opcode.
pub fn joined_b(opcode: u32, funct3: u32, rs1: u32, rs2: u32, imm: i32) -> u32
    requires opcode { opcode < 2 ^ 7 }
    requires funct3 { funct3 < 2 ^ 3 }
    requires rs1 { rs1 < 2 ^ 5 }
    requires rs2 { rs2 < 2 ^ 5 }
    ensures { result ≡ joined_word opcode (low_b_of (bits_of imm)) funct3 rs1 rs2
        (high_b_of (bits_of imm)) }
{
    joined_r(opcode, low_b(imm), funct3, rs1, rs2, high_b(imm))
}

/// An immediate of form I as the upper twelve bits.
pub fn upper_i(imm: i32) -> u32
    ensures value { result ≡ places_i (bits_of imm) }
    ensures below { result < 2 ^ 12 }
{
    imm.cast_unsigned() % 0x1000
}

/// The upper twelve bits of an operation on an immediate; SRAI has a bit beside its immediate.
pub fn operand(op: ImmOp, imm: i32) -> u32
    requires { IsOperand op imm }
    ensures value { result ≡ places_i (bits_of imm) + immediate_extra op }
    ensures below { result < 2 ^ 12 }
{
    match op {
        ImmOp::Srai => upper_i(imm) + 0x400,
        _ => upper_i(imm),
    }
}

/// The part of an immediate of form S that stands in the place of rd.
pub fn low_s(imm: i32) -> u32
    ensures value { result ≡ low_s_of (bits_of imm) }
    ensures below { result < 2 ^ 5 }
{
    imm.cast_unsigned() & 31
}

/// The part of an immediate of form S that stands in the place of funct7.
pub fn high_s(imm: i32) -> u32
    ensures value { result ≡ high_s_of (bits_of imm) }
    ensures below { result < 2 ^ 7 }
{
    imm.cast_unsigned() >> 5 & 127
}

/// The part of an immediate of form B that stands in the place of rd.
pub fn low_b(imm: i32) -> u32
    ensures value { result ≡ low_b_of (bits_of imm) }
    ensures below { result < 2 ^ 5 }
{
    let bits = imm.cast_unsigned();
    (bits >> 1 & 15) * 2 + (bits >> 11 & 1)
}

/// The part of an immediate of form B that stands in the place of funct7.
pub fn high_b(imm: i32) -> u32
    ensures value { result ≡ high_b_of (bits_of imm) }
    ensures below { result < 2 ^ 7 }
{
    let bits = imm.cast_unsigned();
    (bits >> 12 & 1) * 64 + (bits >> 5 & 63)
}

/// An immediate of form U as the upper twenty bits.
pub fn upper_u(imm: i32) -> u32
    ensures value { result ≡ places_u (bits_of imm) }
    ensures below { result < 2 ^ 20 }
{
    imm.cast_unsigned() >> 12
}

/// An immediate of form J as the upper twenty bits.
pub fn upper_j(imm: i32) -> u32
    ensures value { result ≡ places_j (bits_of imm) }
    ensures below { result < 2 ^ 20 }
{
    let bits = imm.cast_unsigned();
    (bits >> 20 & 1) * 0x8_0000
        + (bits >> 1 & 1023) * 512
        + (bits >> 11 & 1) * 256
        + (bits >> 12 & 255)
}
