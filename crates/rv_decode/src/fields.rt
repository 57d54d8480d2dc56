//! The fields of a word, and the immediates that they spell. (Unprivileged manual, 2.2 and 2.3.)
ghost use Rattle.std.specs.Prelude.{◌≡◌, ◌+◌, ◌*◌, ◌/◌, ◌%◌, ◌^◌, ◌<◌};
ghost use Rattle.rv_decode.specs.Fields.{rd_of, funct3_of, rs1_of, rs2_of, immediate_i, immediate_s, immediate_b, immediate_u, immediate_j};

/// Bits 11 to 7, the destination register.
#[inline(always)]
pub fn rd(word: u32) -> u32
    ensures { result ≡ rd_of word }
{
    word >> 7 & 31
}

/// Bits 14 to 12.
#[inline(always)]
pub fn funct3(word: u32) -> u32
    ensures { result ≡ funct3_of word }
{
    word >> 12 & 7
}

/// Bits 19 to 15, the first source register.
#[inline(always)]
pub fn rs1(word: u32) -> u32
    ensures { result ≡ rs1_of word }
{
    word >> 15 & 31
}

/// Bits 24 to 20, the second source register.
#[inline(always)]
pub fn rs2(word: u32) -> u32
    ensures { result ≡ rs2_of word }
{
    word >> 20 & 31
}

/// The immediate of form I, 12 bits with a sign.
#[inline(always)]
pub fn imm_i(word: u32) -> i32
    ensures { result ≡ immediate_i word }
{
    word.cast_signed() >> 20
}

/// The immediate of form S, 12 bits with a sign.
#[inline(always)]
pub fn imm_s(word: u32) -> i32
    ensures { result ≡ immediate_s word }
{
    (word.cast_signed() >> 25) * 32 + rd(word).cast_signed()
}

// all of a branch's immediate but its sign
#[inline(always)]
fn low_b(word: u32) -> u32
    ensures value { result
        ≡ word / 2 ^ 7 % 2 * 2 ^ 11 + word / 2 ^ 25 % 2 ^ 6 * 2 ^ 5 + word / 2 ^ 8 % 2 ^ 4 * 2 }
    ensures below { result < 2 ^ 12 }
{
    (word >> 7 & 1) * 2048 + (word >> 25 & 63) * 32 + (word >> 8 & 15) * 2
}

/// The immediate of form B, an even number of 13 bits with a sign.
#[inline(always)]
pub fn imm_b(word: u32) -> i32
    ensures { result ≡ immediate_b word }
{
    (word.cast_signed() >> 31) * 4096 + low_b(word).cast_signed()
}

/// The immediate of form U, a multiple of 4,096.
#[inline(always)]
pub fn imm_u(word: u32) -> i32
    ensures { result ≡ immediate_u word }
{
    (word - word % 4096).cast_signed()
}

// all of a jump's immediate but its sign
#[inline(always)]
fn low_j(word: u32) -> u32
    ensures value { result
        ≡ word / 2 ^ 12 % 2 ^ 8 * 2 ^ 12 + word / 2 ^ 20 % 2 * 2 ^ 11 + word / 2 ^ 21 % 2 ^ 10 * 2 }
    ensures below { result < 2 ^ 20 }
{
    (word >> 12 & 255) * 4096 + (word >> 20 & 1) * 2048 + (word >> 21 & 1023) * 2
}

/// The immediate of form J, an even number of 21 bits with a sign.
#[inline(always)]
pub fn imm_j(word: u32) -> i32
    ensures { result ≡ immediate_j word }
{
    (word.cast_signed() >> 31) * 1_048_576 + low_j(word).cast_signed()
}
