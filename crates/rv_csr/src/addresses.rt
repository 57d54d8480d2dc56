//! The addresses of the registers. (Privileged manual, 2.2.)

/// Machine status.
pub const MSTATUS: u32 = 0x300;
/// The instruction set.
pub const MISA: u32 = 0x301;
/// Interrupts enabled.
pub const MIE: u32 = 0x304;
/// The trap vector.
pub const MTVEC: u32 = 0x305;
/// The upper half of machine status.
pub const MSTATUSH: u32 = 0x310;
/// Which counters stand still.
pub const MCOUNTINHIBIT: u32 = 0x320;
/// The first register that chooses the events of a performance counter.
pub const MHPMEVENT3: u32 = 0x323;
/// The last register that chooses the events of a performance counter.
pub const MHPMEVENT31: u32 = 0x33f;
/// A word for the trap handler.
pub const MSCRATCH: u32 = 0x340;
/// The pc of the instruction that a trap came to.
pub const MEPC: u32 = 0x341;
/// The cause of the trap.
pub const MCAUSE: u32 = 0x342;
/// The value that goes with the cause.
pub const MTVAL: u32 = 0x343;
/// Interrupts pending.
pub const MIP: u32 = 0x344;
/// The first register of the configuration of physical memory protection.
pub const PMPCFG0: u32 = 0x3a0;
/// The last register of the configuration of physical memory protection.
pub const PMPCFG15: u32 = 0x3af;
/// The first register of the addresses of physical memory protection.
pub const PMPADDR0: u32 = 0x3b0;
/// The last register of the addresses of physical memory protection.
pub const PMPADDR63: u32 = 0x3ef;
/// The lower half of the counter of cycles.
pub const MCYCLE: u32 = 0xb00;
/// The lower half of the counter of retired instructions.
pub const MINSTRET: u32 = 0xb02;
/// The lower half of the first performance counter.
pub const MHPMCOUNTER3: u32 = 0xb03;
/// The lower half of the last performance counter.
pub const MHPMCOUNTER31: u32 = 0xb1f;
/// The upper half of the counter of cycles.
pub const MCYCLEH: u32 = 0xb80;
/// The upper half of the counter of retired instructions.
pub const MINSTRETH: u32 = 0xb82;
/// The upper half of the first performance counter.
pub const MHPMCOUNTER3H: u32 = 0xb83;
/// The upper half of the last performance counter.
pub const MHPMCOUNTER31H: u32 = 0xb9f;
/// The first of the registers that identify the machine: vendor, architecture, implementation, hart and configuration.
pub const MVENDORID: u32 = 0xf11;
/// The last of the registers that identify the machine.
pub const MCONFIGPTR: u32 = 0xf15;
