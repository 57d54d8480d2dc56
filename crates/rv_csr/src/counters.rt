//! The counters of steps and of retired instructions.
ghost use Rattle.std.specs.Prelude.{◌≡◌};
ghost use Rattle.rv_csr.specs.Traps.{counted};

use crate::csrs::Csrs;

impl Csrs {
    /// Ends a step: mcycle rises by one, and minstret where the step retired an instruction, both modulo 2^64. A
    /// counter of which this step wrote a half does not rise, so what was written is what the next step reads.
    /// (Privileged manual, 3.1.10; Unprivileged manual, 10.1.)
    #[inline(always)]
    pub fn count(&mut self, retired: bool)
        ensures { self.new ≡ counted self.old retired }
    {
        if !self.mcycle_written {
            self.mcycle = self.mcycle.wrapping_add(1);
        }
        if retired && !self.minstret_written {
            self.minstret = self.minstret.wrapping_add(1);
        }
        self.mcycle_written = false;
        self.minstret_written = false;
    }
}
