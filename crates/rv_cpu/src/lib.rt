//! The hart: RV32IMA in machine mode, one step at a time over its own RAM, with no device behind it.
#![tactic(auto)]

mod accesses;
mod alu;
mod atomics;
mod batch;
mod cpu;
mod done;
mod engine;
mod execute;
mod fed;
mod hart;
mod moves;
mod need;
mod operands;
mod plain;
mod shown;
mod step;
mod system;
#[cfg(test)]
mod tests;

pub use cpu::Cpu;
