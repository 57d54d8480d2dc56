//! The hart as one of the harts that runs and replays are made of.
ghost use Rattle.std.specs.Prelude.{length};

use crate::cpu::Cpu;
use any_machine::Hart;
use run_events::{Event, Need, Supplied, Watcher};

#[tactic(auto, unfolding(hart_model::specs::Machine::hart))]
impl Hart for Cpu {
    ghost use Rattle.hart_model.proofs.CountLaws.{hart_counts};
    ghost use Rattle.hart_model.specs.Machine.{hart};
    ghost use Rattle.rv_cpu.specs.Sized.{hart_sized};

    ghost machine = { hart };

    ghost done = { λ c. c.step };

    ghost ram_size = { λ c. length c.ram };

    ghost counts = { hart_counts };

    ghost sized = { hart_sized };

    fn steps(&self) -> u32 {
        Cpu::steps(self)
    }

    fn next_need(&self, lines: u8) -> Need {
        Cpu::next_need(self, lines)
    }

    fn holds(&self, address: u32) -> bool {
        Cpu::holds(self, address)
    }

    fn step(&mut self, lines: u8, supplied: Option<Supplied>) -> Event {
        Cpu::step(self, lines, supplied)
    }

    fn run_fast<W: Watcher>(&mut self, lines: u8, number: u32, seen: &mut W) {
        Cpu::run_shown(self, lines, number, seen);
    }

    fn feed_fast<W: Watcher>(&mut self, lines: u8, supplied: Supplied, seen: &mut W) -> bool {
        Cpu::feed_shown(self, lines, supplied, seen)
    }

    fn dma(&mut self, address: u32, word: u32, mark: u8) -> Event {
        Cpu::dma(self, address, word, mark)
    }
}
