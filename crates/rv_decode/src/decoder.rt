//! From a word to an instruction.
ghost use Rattle.std.specs.Prelude.{◌≡◌, ◌%◌, ◌≤◌, count_by, IfSome};
ghost use Rattle.rv_decode.specs.Listing.{meets, rows, instruction};
ghost use Rattle.rv_decode.specs.Valid.{IsValid};
ghost use Rattle.rv_decode.specs.Words.{encoded};

use crate::fields::{imm_j, imm_u, rd};
use crate::groups::{atomic, branch, fence, immediate, jalr, load, register, store, system};
use crate::instruction::Instr;

/// The instruction that a word spells, or `None` where the manual's listing has no row for it. (Unprivileged manual,
/// chapter 24.)
#[inline(always)]
pub fn decode(word: u32) -> Option<Instr>
    ensures read { result ≡ instruction word }
    ensures once { count_by (λ row. meets row word) rows ≤ 1 }
    ensures valid { IfSome result IsValid }
    ensures back { IfSome result (λ i. encoded i ≡ word) }
{
    by_opcode(word)
}

// What a word spells, an opcode at a time.
#[tactic(auto, using(crate::proofs::ListingLaws::opcodes))]
#[inline(always)]
fn by_opcode(word: u32) -> Option<Instr>
    ensures { result ≡ instruction word }
{
    match word % 128 {
        0x37 => Some(Instr::Lui {
            rd: rd(word),
            imm: imm_u(word),
        }),
        0x17 => Some(Instr::Auipc {
            rd: rd(word),
            imm: imm_u(word),
        }),
        0x6f => Some(Instr::Jal {
            rd: rd(word),
            imm: imm_j(word),
        }),
        0x67 => jalr(word),
        0x63 => branch(word),
        0x03 => load(word),
        0x23 => store(word),
        0x13 => immediate(word),
        0x33 => register(word),
        0x0f => fence(word),
        0x2f => atomic(word),
        0x73 => system(word),
        _ => None,
    }
}
