//! What an instruction does to the return addresses.
ghost use Rattle.std.specs.Prelude.{◌≡◌, false};
ghost use Rattle.rv_decode.specs.declared.links.Link.TheVariants.{Plain};
ghost use Rattle.rv_decode.specs.Listing.{instruction};
ghost use Rattle.analysis_model.specs.Calls.{link_as};

use rv_decode::{Link, decode, link_kind};

// The opcodes of the jumps. (Unprivileged manual, chapter 24.)
const JAL: u32 = 0x6f;

const JALR: u32 = 0x67;

// The word of JALR with x0, and the address in x1.
const RETURN: u32 = 0x0000_8067;

// The lower twelve bits of JAL with x1.
const CALL: u32 = 0x0ef;

/// Whether the instruction `word` is a jump that may be a call or a return, by its opcode. No other is one. It is one
/// compare, for those who look at each event.
#[tactic(auto, using(crate::proofs::PlainLaws::plain_word))]
#[inline(always)]
pub fn may_link(word: u32) -> bool
    ensures { result ≡ false → Plain ≡ link_as (instruction word) }
{
    let opcode = word % 128;
    opcode == JAL || opcode == JALR
}

/// Whether the instruction `word` is a call, a return, both or neither. (Unprivileged manual, 2.5.) Those that compilers
/// write are told by their words, and the others by their registers.
#[tactic(auto, using(crate::proofs::PlainLaws::return_word, crate::proofs::PlainLaws::call_word))]
#[inline(always)]
pub fn link_of_word(word: u32) -> Link
    ensures { result ≡ link_as (instruction word) }
{
    if word == RETURN {
        Link::Pop
    } else if word % 4096 == CALL {
        Link::Push
    } else {
        link_by_registers(word)
    }
}

// The same, by the registers of the instruction.
fn link_by_registers(word: u32) -> Link
    ensures { result ≡ link_as (instruction word) }
{
    match decode(word) {
        Some(instr) => link_kind(instr),
        None => Link::Plain,
    }
}
