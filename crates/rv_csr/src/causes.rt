//! The causes of traps. (Privileged manual, 3.1.15, table 3.6.)

/// An instruction cannot begin at its address.
pub const INSTRUCTION_MISALIGNED: u32 = 0;
/// There is no RAM where an instruction should be.
pub const INSTRUCTION_FAULT: u32 = 1;
/// A word that is no instruction, or one that may not be executed.
pub const ILLEGAL_INSTRUCTION: u32 = 2;
/// EBREAK.
pub const BREAKPOINT: u32 = 3;
/// The address of a load is no multiple of its width.
pub const LOAD_MISALIGNED: u32 = 4;
/// There is nothing to load from at an address.
pub const LOAD_FAULT: u32 = 5;
/// The address of a store is no multiple of its width; of SC and of an atomic operation too.
pub const STORE_MISALIGNED: u32 = 6;
/// There is nothing to store to at an address; for SC and an atomic operation too.
pub const STORE_FAULT: u32 = 7;
/// ECALL in machine mode.
pub const MACHINE_CALL: u32 = 11;

/// The timer's interrupt.
pub const TIMER_INTERRUPT: u32 = 0x8000_0007;
/// The external interrupt.
pub const EXTERNAL_INTERRUPT: u32 = 0x8000_000b;
