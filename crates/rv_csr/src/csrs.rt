//! The registers that hold something.
ghost use Rattle.std.specs.Prelude.{◌≡◌};
ghost use Rattle.rv_csr.specs.Csrs.{reset};

/// The control and status registers that hold something, each as what it holds. All other registers of machine mode read
/// a constant or the interrupt lines.
#[derive(Clone, Copy, Debug, PartialEq, Eq)]
pub struct Csrs {
    /// mstatus.MIE: interrupts are taken.
    pub interrupts: bool,
    /// mstatus.MPIE: interrupts were taken before the last trap.
    pub interrupts_before: bool,
    /// mie.MTIE: the timer's interrupt is enabled.
    pub timer_enabled: bool,
    /// mie.MEIE: the external interrupt is enabled.
    pub external_enabled: bool,
    /// Where traps go: the address of the handlers, and in bit 0 whether each interrupt has its own.
    pub mtvec: u32,
    /// A word for the trap handler.
    pub mscratch: u32,
    /// The pc that the last trap came to.
    pub mepc: u32,
    /// The cause of the last trap.
    pub mcause: u32,
    /// The value that goes with that cause.
    pub mtval: u32,
    /// The number of steps, unless it was written.
    pub mcycle: u64,
    /// The number of retired instructions, unless it was written.
    pub minstret: u64,
    /// A half of mcycle was written since the last step ended, so it does not rise when this step ends.
    pub mcycle_written: bool,
    /// A half of minstret was written since the last step ended, so it does not rise when this step ends.
    pub minstret_written: bool,
}

impl Csrs {
    /// The registers after reset: all that hold something are 0. (Privileged manual, 3.4.)
    pub fn new() -> Csrs
        ensures { result ≡ reset }
    {
        Csrs {
            interrupts: false,
            interrupts_before: false,
            timer_enabled: false,
            external_enabled: false,
            mtvec: 0,
            mscratch: 0,
            mepc: 0,
            mcause: 0,
            mtval: 0,
            mcycle: 0,
            minstret: 0,
            mcycle_written: false,
            minstret_written: false,
        }
    }
}
