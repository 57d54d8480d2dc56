//! The instructions of RV32IMA with Zicsr and Zifencei: which words they are, and back.
#![tactic(auto)]

mod codes;
mod decoder;
mod encoder;
mod fields;
mod groups;
mod instruction;
mod links;
mod operations;
mod places;
#[cfg(test)]
mod tests;
mod validity;

pub use decoder::decode;
pub use encoder::encode;
pub use instruction::Instr;
pub use links::{Link, link_kind};
pub use operations::{AtomicOp, BranchOp, CsrOp, FenceOp, ImmOp, LoadOp, RegOp, StoreOp};
pub use validity::is_valid;
