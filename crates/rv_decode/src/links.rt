//! Calls and returns, by their registers.
ghost use Rattle.std.specs.Prelude.{◌≡◌, ◌==◌};
ghost use Rattle.rv_decode.specs.Links.{is_link as links, hint, link_of};

use crate::instruction::Instr;

/// What an instruction does to the stack of return addresses.
#[derive(Clone, Copy, Debug, PartialEq, Eq)]
pub enum Link {
    /// Nothing: it is no call and no return.
    Plain,
    /// It is a call, and puts a return address on the stack.
    Push,
    /// It is a return, and takes one off.
    Pop,
    /// It is a return and then a call: it takes one off, and then puts one on.
    PopPush,
}

// Whether a register may hold a return address.
fn is_link(register: u32) -> bool
    ensures { result ≡ links register }
{
    register == 1 || register == 5
}

// What a JALR does, by its registers.
fn jalr_kind(rd: u32, rs1: u32) -> Link
    ensures { result ≡ hint (links rd) (links rs1) (rd == rs1) }
{
    let pops = is_link(rs1) && rs1 != rd;
    match (pops, is_link(rd)) {
        (false, false) => Link::Plain,
        (false, true) => Link::Push,
        (true, false) => Link::Pop,
        (true, true) => Link::PopPush,
    }
}

/// Whether an instruction is a call, a return, both or neither, by the link registers x1 and x5. (Unprivileged manual, 2.5.)
pub fn link_kind(i: Instr) -> Link
    ensures { result ≡ link_of i }
{
    match i {
        Instr::Jal { rd, imm: _ } => { if is_link(rd) { Link::Push } else { Link::Plain } }
        Instr::Jalr { rd, rs1, imm: _ } => jalr_kind(rd, rs1),
        _ => Link::Plain,
    }
}
