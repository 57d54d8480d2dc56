//! Records, and why a run ended.
use memory_map::SharedByThreads;

/// Why a run ended.
#[derive(Clone, Copy, Debug, PartialEq, Eq)]
pub enum EndCause {
    /// The guest stored to the power register; `status` is the low byte that it stored.
    Power { status: u8 },
    /// As many steps were done as the limit allows.
    Limit,
}

/// One input of a run that the program text does not determine, or a mark of how far the run has come.
/// `step` is the record's number.
#[derive(Clone, Copy, Debug, PartialEq, Eq)]
pub enum Record {
    /// The step loads a device register and gets `value`, with a mark of 0 or 1.
    Load {
        step: u32,
        value: u32,
        mark: u8,
    },
    /// From this step on the interrupt lines are `bits`: bit 0 the timer, bit 1 the external line.
    Lines {
        step: u32,
        bits: u8,
    },
    /// Before this step the disk writes `word` at `address`, with a mark of 0 or 1.
    Dma {
        step: u32,
        address: u32,
        word: u32,
        mark: u8,
    },
    /// All steps below this number are done.
    Reach {
        step: u32,
    },
    /// The run has this number of steps, and ended there for this reason. No record comes after it.
    End {
        step: u32,
        cause: EndCause,
    },
}

impl SharedByThreads for Record {}
