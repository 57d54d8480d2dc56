//! The hart's state, and what its instructions take from it and leave in it.
ghost use Rattle.std.specs.Prelude.{◌≡◌};
ghost use Rattle.rv_decode.specs.Valid.{IsRegister};

use run_events::Told;
use rv_csr::Csrs;
use rv_memory::Ram;
use std::marker::Model;

/// A hart and its RAM, at any moment of a step. Contracts see the state of the definition.
#[derive(Drop)]
pub struct Engine {
    pub registers: [u32; 32],
    /// The address of the next instruction.
    pub pc: u32,
    pub csrs: Csrs,
    pub ram: Ram,
    /// The address of the word that is reserved, if one is.
    pub reserved: Option<u32>,
    /// The number of steps done.
    pub steps: u32,
}

impl Model for Engine {
    ghost use Rattle.hart_model.specs.State.{State};

    ghost Value = { State };

    ghost view = { λ e. record {
      registers = e.registers;
      pc = e.pc;
      csrs = e.csrs;
      ram = e.ram;
      reservation = e.reserved;
      step = e.steps;
    } };
}

impl Engine {
    ghost use Rattle.hart_model.specs.Operations.{sum};
    ghost use Rattle.hart_model.specs.State.{register, reset_state, taken, told_by, with_register};

    /// The hart at step 0.
    pub fn new(ram: Ram, entry: u32) -> Engine
        ensures { result ≡ reset_state ram entry }
    {
        Engine {
            registers: [0; 32],
            pc: entry,
            csrs: Csrs::new(),
            ram,
            reserved: None,
            steps: 0,
        }
    }

    /// What a register holds.
    #[inline(always)]
    pub fn register(&self, index: u32) -> u32
        requires { IsRegister index }
        ensures { result ≡ register self.now index }
    {
        self.registers[index as usize]
    }

    /// Writes a register, and answers what was written: x0 holds 0 whatever is written.
    #[inline(always)]
    pub fn put(&mut self, rd: u32, value: u32) -> u32
        requires { IsRegister rd }
        ensures taken { result ≡ taken rd value }
        ensures state { self.new
            ≡ record self.old { registers = with_register self.old.registers rd value } }
    {
        let kept = if rd == 0 { 0 } else { value };
        self.registers[rd as usize] = kept;
        kept
    }

    /// The address of the instruction after this one.
    #[inline(always)]
    pub fn next(&self, size: u32) -> u32
        ensures { result ≡ sum self.now.pc size }
    {
        self.pc.wrapping_add(size)
    }

    /// What x10, x11 and x12 hold.
    #[inline(always)]
    pub fn argument_registers(&self) -> Told
        ensures { result ≡ told_by self.now.registers }
    {
        Told {
            a0: self.registers[10],
            a1: self.registers[11],
            a2: self.registers[12],
        }
    }
}
