//! What the operations compute, on words. (Unprivileged manual, chapters 2, 7, 8 and 9.)
ghost use Rattle.std.specs.Prelude.{◌≡◌, ◌*◌, ◌^◌, ◌<◌, ◌≤◌, int_lt, ℤ, pos, ◌-ℤ◌, ◌*ℤ◌, ◌≤ℤ◌, ◌<ℤ◌};
ghost use Rattle.memory_map.specs.Ram.{IsWidth};
ghost use Rattle.hart_model.specs.Operations as operations;

use rv_decode::{AtomicOp, CsrOp, LoadOp, RegOp, StoreOp};

/// 1 where a test holds, else 0.
#[inline(always)]
pub fn flag(test: bool) -> u32
    ensures { result ≡ operations.flag test }
{
    if test { 1 } else { 0 }
}

/// Whether a word is less than another one, both as signed numbers.
#[inline(always)]
pub fn is_less_signed(a: u32, b: u32) -> bool
    ensures { result ≡ int_lt (operations.signed a) (operations.signed b) }
{
    a.cast_signed() < b.cast_signed()
}

/// A word shifted left by the low five bits of the other one.
#[inline(always)]
pub fn shift_left(a: u32, b: u32) -> u32
    ensures { result ≡ operations.shifted_left a b }
{
    a.wrapping_shl(b)
}

/// A word shifted right by the low five bits of the other one, with zeros from the left.
#[inline(always)]
pub fn shift_right(a: u32, b: u32) -> u32
    ensures { result ≡ operations.shifted_right a b }
{
    a.wrapping_shr(b)
}

/// A word shifted right by the low five bits of the other one, with copies of its sign from the left.
#[inline(always)]
pub fn shift_right_signed(a: u32, b: u32) -> u32
    ensures { result ≡ operations.shifted_signed a b }
{
    a.cast_signed().wrapping_shr(b).cast_unsigned()
}

// A word's signed number, in 64 bits.
#[inline(always)]
fn widen(a: u32) -> i64
    ensures value { result ≡ operations.signed a }
    ensures least { (pos 0 -ℤ pos (2 ^ 31)) ≤ℤ result }
    ensures most { result <ℤ pos (2 ^ 31) }
{
    i64::from(a.cast_signed())
}

// The upper 32 bits of a product.
#[inline(always)]
fn upper_half(product: i64) -> u32
    ensures { result ≡ operations.upper product }
{
    ((product >> 32) as i32).cast_unsigned()
}

// MULH: the upper half of the product of two signed numbers.
#[inline(always)]
fn high_signed(a: u32, b: u32) -> u32
    ensures { result ≡ operations.upper (operations.signed a *ℤ operations.signed b) }
{
    upper_half(widen(a) * widen(b))
}

// MULHSU: the upper half of the product of a signed and an unsigned number.
#[inline(always)]
fn high_mixed(a: u32, b: u32) -> u32
    ensures { result ≡ operations.upper (operations.signed a *ℤ pos b) }
{
    upper_half(widen(a) * i64::from(b))
}

// MULHU: the upper half of the product of two unsigned numbers.
#[inline(always)]
fn high_unsigned(a: u32, b: u32) -> u32
    ensures { result ≡ operations.register_result RegOp.Mulhu a b }
{
    (u64::from(a) * u64::from(b) >> 32) as u32
}

// DIV: the signed quotient, rounded towards 0. By 0 it is -1; the least number by -1 is the least number.
#[inline(always)]
fn quotient(a: u32, b: u32) -> u32
    ensures { result ≡ operations.quotient a b }
{
    if b == 0 {
        u32::MAX
    } else {
        a.cast_signed()
            .wrapping_div(b.cast_signed())
            .cast_unsigned()
    }
}

// DIVU: the unsigned quotient. By 0 it is the greatest number.
#[inline(always)]
fn quotient_unsigned(a: u32, b: u32) -> u32
    ensures { result ≡ operations.quotient_unsigned a b }
{
    if b == 0 { u32::MAX } else { a / b }
}

// REM: the signed remainder, with the sign of what is divided. By 0 it is that number; the least number by -1 leaves 0.
#[inline(always)]
fn remainder(a: u32, b: u32) -> u32
    ensures { result ≡ operations.remainder a b }
{
    if b == 0 {
        a
    } else {
        a.cast_signed()
            .wrapping_rem(b.cast_signed())
            .cast_unsigned()
    }
}

// REMU: the unsigned remainder. By 0 it is the number that is divided.
#[inline(always)]
fn remainder_unsigned(a: u32, b: u32) -> u32
    ensures { result ≡ operations.remainder_unsigned a b }
{
    if b == 0 { a } else { a % b }
}

/// What an operation makes of two registers. (2.4, 7.1 and 7.2)
#[inline(always)]
pub fn register(op: RegOp, a: u32, b: u32) -> u32
    ensures { result ≡ operations.register_result op a b }
{
    match op {
        RegOp::Add => a.wrapping_add(b),
        RegOp::Sub => a.wrapping_sub(b),
        RegOp::Sll => shift_left(a, b),
        RegOp::Slt => flag(is_less_signed(a, b)),
        RegOp::Sltu => flag(a < b),
        RegOp::Xor => a ^ b,
        RegOp::Srl => shift_right(a, b),
        RegOp::Sra => shift_right_signed(a, b),
        RegOp::Or => a | b,
        RegOp::And => a & b,
        RegOp::Mul => a.wrapping_mul(b),
        RegOp::Mulh => high_signed(a, b),
        RegOp::Mulhsu => high_mixed(a, b),
        RegOp::Mulhu => high_unsigned(a, b),
        RegOp::Div => quotient(a, b),
        RegOp::Divu => quotient_unsigned(a, b),
        RegOp::Rem => remainder(a, b),
        RegOp::Remu => remainder_unsigned(a, b),
    }
}

/// How many bytes a load reads. (2.6)
#[inline(always)]
pub fn load_width(op: LoadOp) -> u32
    ensures value { result ≡ operations.load_width op }
    ensures whole { IsWidth result }
{
    match op {
        LoadOp::Lb | LoadOp::Lbu => 1,
        LoadOp::Lh | LoadOp::Lhu => 2,
        LoadOp::Lw => 4,
    }
}

/// How many bytes a store writes. (2.6)
#[inline(always)]
pub fn store_width(op: StoreOp) -> u32
    ensures value { result ≡ operations.store_width op }
    ensures whole { IsWidth result }
{
    match op {
        StoreOp::Sb => 1,
        StoreOp::Sh => 2,
        StoreOp::Sw => 4,
    }
}

// The low byte of a word, sign extended.
#[inline(always)]
fn extend_byte(word: u32) -> u32
    ensures { result ≡ operations.extended 8 word }
{
    let low = word & 0xff;
    if low < 0x80 { low } else { low + 0xffff_ff00 }
}

// The low halfword of a word, sign extended.
#[inline(always)]
fn extend_halfword(word: u32) -> u32
    ensures { result ≡ operations.extended 16 word }
{
    let low = word & 0xffff;
    if low < 0x8000 { low } else { low + 0xffff_0000 }
}

/// What a load writes to its register: the low bytes of a word, extended by their sign or by zero. (2.6)
#[inline(always)]
pub fn load_result(op: LoadOp, word: u32) -> u32
    ensures { result ≡ operations.load_result op word }
{
    match op {
        LoadOp::Lb => extend_byte(word),
        LoadOp::Lh => extend_halfword(word),
        LoadOp::Lw => word,
        LoadOp::Lbu => word & 0xff,
        LoadOp::Lhu => word & 0xffff,
    }
}

/// The word that an atomic leaves in memory, by the word that was there and its register. (8.2 and 8.4)
pub fn swap_result(op: AtomicOp, old: u32, register: u32) -> u32
    ensures { result ≡ operations.swapped op old register }
{
    match op {
        AtomicOp::Lr => old,
        AtomicOp::Sc | AtomicOp::Swap => register,
        AtomicOp::Add => old.wrapping_add(register),
        AtomicOp::Xor => old ^ register,
        AtomicOp::And => old & register,
        AtomicOp::Or => old | register,
        AtomicOp::Min => if is_less_signed(old, register) {
            old
        } else {
            register
        },
        AtomicOp::Max => if is_less_signed(old, register) {
            register
        } else {
            old
        },
        AtomicOp::Minu => if old < register { old } else { register },
        AtomicOp::Maxu => if old < register { register } else { old },
    }
}

/// Whether the source of a CSR instruction is a register's number; else it is the operand itself. (9.1)
pub fn takes_register(op: CsrOp) -> bool
    ensures { result ≡ operations.takes_register op }
{
    match op {
        CsrOp::Csrrw | CsrOp::Csrrs | CsrOp::Csrrc => true,
        CsrOp::Csrrwi | CsrOp::Csrrsi | CsrOp::Csrrci => false,
    }
}

/// Whether a CSR instruction with this rd reads the CSR. (9.1)
pub fn reads_csr(op: CsrOp, rd: u32) -> bool
    ensures { result ≡ operations.reads_csr op rd }
{
    match op {
        CsrOp::Csrrw | CsrOp::Csrrwi => rd != 0,
        _ => true,
    }
}

/// Whether a CSR instruction with this source writes the CSR. (9.1)
pub fn writes_csr(op: CsrOp, source: u32) -> bool
    ensures { result ≡ operations.writes_csr op source }
{
    match op {
        CsrOp::Csrrw | CsrOp::Csrrwi => true,
        _ => source != 0,
    }
}

/// What a CSR instruction writes, by what the CSR read and the operand. (9.1)
pub fn csr_result(op: CsrOp, old: u32, operand: u32) -> u32
    ensures { result ≡ operations.csr_result op old operand }
{
    match op {
        CsrOp::Csrrw | CsrOp::Csrrwi => operand,
        CsrOp::Csrrs | CsrOp::Csrrsi => old | operand,
        CsrOp::Csrrc | CsrOp::Csrrci => old & !operand,
    }
}
