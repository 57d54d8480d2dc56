//! Events: what a step did, or a word that the disk wrote before one.
ghost use Rattle.std.specs.Prelude.{◌≡◌};
ghost use Rattle.run_events.specs.Event as events;

use crate::{Access, Told};

/// What one step of the machine did, or one word that the disk wrote before a step.
#[derive(Clone, Copy, Debug, PartialEq, Eq)]
pub enum Event {
    /// Before `step`, the disk wrote `word` at `address`, with a mark of 0 or 1.
    Dma {
        step: u32,
        address: u32,
        word: u32,
        mark: u8,
    },
    /// At `step`, an interrupt was taken in place of the instruction at `pc`. `cause` is what mcause got, and `next` the pc
    /// of the handler.
    Irq {
        step: u32,
        pc: u32,
        cause: u32,
        next: u32,
    },
    /// At `step`, the instruction at `pc` raised an exception. `word` is 0 where the fetch failed; `cause` and `value` are
    /// what mcause and mtval got, and `next` is the pc of the handler.
    Trap {
        step: u32,
        pc: u32,
        word: u32,
        cause: u32,
        value: u32,
        next: u32,
    },
    /// At `step`, the instruction `word` at `pc` was executed; `next` is the pc after it.
    /// `result` is the value written to rd, and 0 where nothing is written; `told` is what the argument registers held
    /// before it.
    Exec {
        step: u32,
        pc: u32,
        word: u32,
        next: u32,
        result: u32,
        access: Access,
        told: Told,
    },
}

impl Event {
    /// The step at which the event stands; a word from the disk stands before its step.
    pub fn step(&self) -> u32
        ensures { result ≡ events.step_of self.now }
    {
        match self {
            Event::Dma { step, .. }
            | Event::Irq { step, .. }
            | Event::Trap { step, .. }
            | Event::Exec { step, .. } => *step,
        }
    }

    /// The low byte of a store that begins at this byte address; none where the event is no store, or one elsewhere.
    pub fn byte_stored(&self, place: u32) -> Option<u8>
        ensures { result ≡ events.byte_stored place self.now }
    {
        match self {
            Event::Exec {
                access: Access::Store { address, value, .. },
                ..
            } if *address == place => Some((*value % 0x100) as u8),
            _ => None,
        }
    }
}
