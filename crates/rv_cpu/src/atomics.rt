//! Atomics, which go to RAM alone. (Unprivileged manual, chapter 8.)
ghost use Rattle.std.specs.Prelude.{◌≡◌, length};
ghost use Rattle.memory_map.specs.Ram.{InRam};
ghost use Rattle.rv_decode.specs.Valid.{IsRegister};
ghost use Rattle.hart_model.specs.Effect as model;
ghost use Rattle.hart_model.specs.Effect.{Does};
ghost use Rattle.rv_cpu.specs.Midway.{at, midway};

use crate::accesses::is_aligned;
use crate::alu;
use crate::done::Done;
use crate::engine::Engine;
use run_events::Access;
use rv_csr::causes::{LOAD_FAULT, LOAD_MISALIGNED, STORE_FAULT, STORE_MISALIGNED};
use rv_decode::AtomicOp;

/// Whether the reservation is of the word at this address.
pub fn is_reserved(reserved: Option<u32>, address: u32) -> bool
    ensures { result ≡ model.is_reserved reserved address }
{
    match reserved {
        Some(word) => word == address,
        None => false,
    }
}

impl Engine {
    // LR: loads a word and reserves it. (8.2)
    fn reserve(&mut self, size: u32, rd: u32, address: u32) -> Done
        requires { IsRegister rd }
        ensures { at size result self.new
            ≡ midway self.old (model.reserving self.old size rd address) }
    {
        if !is_aligned(address, 4) {
            return Done::Raised {
                cause: LOAD_MISALIGNED,
                value: address,
            };
        }
        if !self.ram.holds(address, 4) {
            return Done::Raised {
                cause: LOAD_FAULT,
                value: address,
            };
        }
        let value = self.ram.load(address, 4);
        self.reserved = Some(address);
        Done::Accessed {
            result: self.put(rd, value),
            access: Access::Load {
                address,
                width: 4,
                value,
                device: false,
                mark: 0,
            },
        }
    }

    // SC in RAM: stores a word where it is reserved, and writes 0, else 1. It ends each reservation. (8.2)
    fn store_reserved(&mut self, size: u32, rd: u32, value: u32, address: u32) -> Done
        requires rd { IsRegister rd }
        requires held { InRam (length self.old.ram) address 4 }
        ensures { at size result self.new
            ≡ midway self.old (Does (model.storing_reserved self.old size rd value address)) }
    {
        let succeeds = is_reserved(self.reserved, address);
        self.reserved = None;
        if !succeeds {
            return self.write(size, rd, 1);
        }
        self.ram.store(address, 4, value);
        Done::Accessed {
            result: self.put(rd, 0),
            access: Access::Store {
                address,
                width: 4,
                value,
                device: false,
            },
        }
    }

    // SC.
    fn store_conditionally(&mut self, size: u32, rd: u32, value: u32, address: u32) -> Done
        requires { IsRegister rd }
        ensures { at size result self.new
            ≡ midway self.old (model.conditional self.old size rd value address) }
    {
        if !is_aligned(address, 4) {
            Done::Raised {
                cause: STORE_MISALIGNED,
                value: address,
            }
        } else if self.ram.holds(address, 4) {
            self.store_reserved(size, rd, value, address)
        } else {
            Done::Raised {
                cause: STORE_FAULT,
                value: address,
            }
        }
    }

    // An operation on a word, whose old value goes to rd. (8.4)
    fn swap(&mut self, size: u32, op: AtomicOp, rd: u32, value: u32, address: u32) -> Done
        requires { IsRegister rd }
        ensures { at size result self.new
            ≡ midway self.old (model.swapping self.old size op rd value address) }
    {
        if !is_aligned(address, 4) {
            return Done::Raised {
                cause: STORE_MISALIGNED,
                value: address,
            };
        }
        if !self.ram.holds(address, 4) {
            return Done::Raised {
                cause: STORE_FAULT,
                value: address,
            };
        }
        let old = self.ram.load(address, 4);
        let new = alu::swap_result(op, old, value);
        self.ram.store(address, 4, new);
        Done::Accessed {
            result: self.put(rd, old),
            access: Access::Swap { address, old, new },
        }
    }

    /// Does an atomic on the word at this address, with the value of its register. A misaligned address is exception 4 of
    /// LR and 6 of the others, an address outside RAM exception 5 of LR and 7 of the others.
    pub fn do_atomic(&mut self, size: u32, op: AtomicOp, rd: u32, value: u32, address: u32) -> Done
        requires { IsRegister rd }
        ensures { at size result self.new
            ≡ midway self.old (model.atomic self.old size op rd value address) }
    {
        match op {
            AtomicOp::Lr => self.reserve(size, rd, address),
            AtomicOp::Sc => self.store_conditionally(size, rd, value, address),
            _ => self.swap(size, op, rd, value, address),
        }
    }
}
