//! Reads and writes by address.
ghost use Rattle.std.specs.Prelude.{◌≡◌, ◌<◌, is_some, unwrap_or};
ghost use Rattle.rv_csr.specs.Table as model;

use crate::addresses::{
    MCAUSE, MCONFIGPTR, MCOUNTINHIBIT, MCYCLE, MCYCLEH, MEPC, MHPMCOUNTER3, MHPMCOUNTER3H,
    MHPMCOUNTER31, MHPMCOUNTER31H, MHPMEVENT3, MHPMEVENT31, MIE, MINSTRET, MINSTRETH, MIP, MISA,
    MSCRATCH, MSTATUS, MSTATUSH, MTVAL, MTVEC, MVENDORID, PMPADDR0, PMPADDR63, PMPCFG0, PMPCFG15,
};
use crate::csrs::Csrs;
use memory_map::{GRAIN, high_half, low_half, with_high, with_low};

// The bits of mstatus that hold something, by their numbers. (Privileged manual, 3.1.6.)
const STATUS_MIE: u32 = 3;

const STATUS_MPIE: u32 = 7;

// The previous mode in mstatus, which is machine mode always.
const STATUS_MPP: u32 = 0x1800;

// The bits of the timer's and of the external interrupt in mie and mip, by their numbers. (Privileged manual, 3.1.9.)
const TIMER: u32 = 7;

const EXTERNAL: u32 = 11;

// What misa reads: registers of 32 bits, and the letters A, I and M. (Privileged manual, 3.1.1.)
const RV32IMA: u32 = 0x4000_1101;

// Whether this bit of a word is set.
fn has_bit(bit: u32, word: u32) -> bool
    requires { bit < 32 }
    ensures { result ≡ model.has_bit bit word }
{
    (word >> bit) % 2 == 1
}

// A word with this bit alone where the flag is set, else 0.
fn bit_if(bit: u32, flag: bool) -> u32
    requires { bit < 32 }
    ensures { result ≡ model.bit_if bit flag }
{
    if flag { 1 << bit } else { 0 }
}

// Whether bits 11:10 of an address are 11: such a register is only read.
fn is_read_only(address: u32) -> bool
    ensures { result ≡ model.is_read_only address }
{
    address / 0x400 % 4 == 3
}

impl Csrs {
    // Keeps of a value what mstatus holds.
    fn set_mstatus(&mut self, value: u32)
        ensures { self.new ≡ model.with_mstatus self.old value }
    {
        self.interrupts = has_bit(STATUS_MIE, value);
        self.interrupts_before = has_bit(STATUS_MPIE, value);
    }

    // Keeps of a value what mie holds.
    fn set_mie(&mut self, value: u32)
        ensures { self.new ≡ model.with_mie self.old value }
    {
        self.timer_enabled = has_bit(TIMER, value);
        self.external_enabled = has_bit(EXTERNAL, value);
    }

    // Gives mcycle a value, which the end of this step leaves alone.
    fn set_mcycle(&mut self, counter: u64)
        ensures { self.new ≡ model.with_mcycle self.old counter }
    {
        self.mcycle = counter;
        self.mcycle_written = true;
    }

    // Gives minstret a value, which the end of this step leaves alone.
    fn set_minstret(&mut self, counter: u64)
        ensures { self.new ≡ model.with_minstret self.old counter }
    {
        self.minstret = counter;
        self.minstret_written = true;
    }

    /// What the register of this address reads, with bit 0 of `lines` for the timer's line and bit 1 for the external
    /// one. `None` exactly where there is no such register. (Privileged manual, 2.2.)
    #[tactic(auto, unfolding(crate::specs::Table::read, crate::specs::Table::rows))]
    pub fn read(&self, address: u32, lines: u8) -> Option<u32>
        ensures { result ≡ model.read self.now address lines }
    {
        let value = match address {
            MSTATUS => {
                STATUS_MPP
                    + bit_if(STATUS_MPIE, self.interrupts_before)
                    + bit_if(STATUS_MIE, self.interrupts)
            }
            MISA => RV32IMA,
            MIE => bit_if(EXTERNAL, self.external_enabled) + bit_if(TIMER, self.timer_enabled),
            MTVEC => self.mtvec,
            MSCRATCH => self.mscratch,
            MEPC => self.mepc,
            MCAUSE => self.mcause,
            MTVAL => self.mtval,
            MIP => bit_if(EXTERNAL, lines / 2 % 2 == 1) + bit_if(TIMER, lines % 2 == 1),
            MCYCLE => low_half(self.mcycle),
            MINSTRET => low_half(self.minstret),
            MCYCLEH => high_half(self.mcycle),
            MINSTRETH => high_half(self.minstret),
            MSTATUSH
            | MCOUNTINHIBIT
            | MHPMEVENT3..=MHPMEVENT31
            | PMPCFG0..=PMPCFG15
            | PMPADDR0..=PMPADDR63
            | MHPMCOUNTER3..=MHPMCOUNTER31
            | MHPMCOUNTER3H..=MHPMCOUNTER31H
            | MVENDORID..=MCONFIGPTR => 0,
            _ => return None,
        };
        Some(value)
    }

    /// Writes to the register of this address, which keeps of the value what its row in the manual says. `None` exactly
    /// where there is no such register or bits 11:10 of the address are 11, so that it is only read; then nothing has
    /// changed. (Privileged manual, 2.1 and 2.2.)
    #[tactic(auto, unfolding(crate::specs::Table::written, crate::specs::Table::rows))]
    pub fn write(&mut self, address: u32, value: u32) -> Option<()>
        ensures done { is_some result ≡ is_some (model.written self.old address value) }
        ensures after { self.new ≡ unwrap_or (model.written self.old address value) self.old }
    {
        if is_read_only(address) {
            return None;
        }
        match address {
            MSTATUS => self.set_mstatus(value),
            MIE => self.set_mie(value),
            // the modes are 0 and 1, so that bit 1 stays 0
            MTVEC => self.mtvec = value - value / 2 % 2 * 2,
            MSCRATCH => self.mscratch = value,
            MEPC => self.mepc = value - value % GRAIN,
            MCAUSE => self.mcause = value,
            MTVAL => self.mtval = value,
            MCYCLE => self.set_mcycle(with_low(self.mcycle, value)),
            MINSTRET => self.set_minstret(with_low(self.minstret, value)),
            MCYCLEH => self.set_mcycle(with_high(self.mcycle, value)),
            MINSTRETH => self.set_minstret(with_high(self.minstret, value)),
            MISA
            | MIP
            | MSTATUSH
            | MCOUNTINHIBIT
            | MHPMEVENT3..=MHPMEVENT31
            | PMPCFG0..=PMPCFG15
            | PMPADDR0..=PMPADDR63
            | MHPMCOUNTER3..=MHPMCOUNTER31
            | MHPMCOUNTER3H..=MHPMCOUNTER31H => {}
            _ => return None,
        }
        Some(())
    }
}
