//! Traps, and the interrupts that wait.
ghost use Rattle.std.specs.Prelude.{◌≡◌};
ghost use Rattle.rv_csr.specs.Traps as model;

use crate::causes::{EXTERNAL_INTERRUPT, TIMER_INTERRUPT};
use crate::csrs::Csrs;

impl Csrs {
    /// Enters a trap with this cause and value at this pc, and answers the pc of its handler: mtvec's base, and for an
    /// interrupt in vectored mode four times its number more, modulo 2^32. (Privileged manual, 3.1.6 and 3.1.7.)
    pub fn enter(&mut self, cause: u32, pc: u32, value: u32) -> u32
        ensures handler { result ≡ model.vector self.old cause }
        ensures after { self.new ≡ model.entered self.old cause pc value }
    {
        self.interrupts_before = self.interrupts;
        self.interrupts = false;
        self.mepc = pc;
        self.mcause = cause;
        self.mtval = value;
        // the lower two bits of mtvec are its mode, and the upper bit of a cause says that it is an interrupt
        let base = self.mtvec - self.mtvec % 4;
        if self.mtvec % 2 == 1 && cause >= 0x8000_0000 {
            base.wrapping_add((cause % 0x8000_0000).wrapping_mul(4))
        } else {
            base
        }
    }

    /// Leaves a trap, as MRET does, and answers the pc to go on at. (Privileged manual, 3.3.2.)
    pub fn leave(&mut self) -> u32
        ensures from { result ≡ self.old.mepc }
        ensures after { self.new ≡ model.left self.old }
    {
        self.interrupts = self.interrupts_before;
        self.interrupts_before = true;
        self.mepc
    }

    /// The cause of the interrupt that is taken before the next instruction, with bit 0 of `lines` for the timer's line and
    /// bit 1 for the external one. `None` exactly where interrupts are off or none that is enabled has its line up. The
    /// external interrupt comes before the timer's. (Privileged manual, 3.1.9.)
    #[inline(always)]
    pub fn pending(&self, lines: u8) -> Option<u32>
        ensures { result ≡ model.pending self.now lines }
    {
        if !self.interrupts {
            None
        } else if self.external_enabled && lines / 2 % 2 == 1 {
            Some(EXTERNAL_INTERRUPT)
        } else if self.timer_enabled && lines % 2 == 1 {
            Some(TIMER_INTERRUPT)
        } else {
            None
        }
    }
}
