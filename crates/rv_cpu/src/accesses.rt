//! Loads and stores. (Unprivileged manual, 2.6.)
ghost use Rattle.std.specs.Prelude.{◌≡◌, ◌%◌, ◌==◌, ◌&&◌, true, false, length, None, if◌then◌else◌};
ghost use Rattle.memory_map.specs.Ram.{InRam, IsWidth, in_ram};
ghost use Rattle.rv_decode.specs.Valid.{IsRegister};
ghost use Rattle.memory_map.specs.Device.{is_device};
ghost use Rattle.hart_model.specs.Effect as model;
ghost use Rattle.hart_model.specs.Effect.{Raises};
ghost use Rattle.hart_model.specs.Operations.{load_width, store_width, sum};
ghost use Rattle.hart_model.specs.State.{register};
ghost use Rattle.rv_cpu.specs.Midway.{at, midway, plainly};

use crate::alu;
use crate::done::Done;
use crate::engine::Engine;
use memory_map::is_device;
use run_events::{Access, Supplied};
use rv_csr::causes::{LOAD_FAULT, LOAD_MISALIGNED, STORE_FAULT, STORE_MISALIGNED};
use rv_decode::{LoadOp, StoreOp};

/// Whether an address is a multiple of a width.
#[inline(always)]
pub fn is_aligned(address: u32, width: u32) -> bool
    requires { IsWidth width }
    ensures { result ≡ (address % width == 0) }
{
    address & (width - 1) == 0
}

/// So many low bytes of a word, extended by zero.
#[inline(always)]
pub fn low_bytes(width: u32, word: u32) -> u32
    requires { IsWidth width }
    ensures { result ≡ model.low_bytes width word }
{
    match width {
        1 => word % 0x100,
        2 => word % 0x1_0000,
        _ => word,
    }
}

// What a device register supplied; 0 where nothing was supplied.
fn value_of(supplied: Option<Supplied>) -> u32
    ensures { result ≡ model.value_of supplied }
{
    match supplied {
        Some(Supplied { value, .. }) => value,
        None => 0,
    }
}

// The mark of what it supplied; 0 where nothing was supplied.
fn mark_of(supplied: Option<Supplied>) -> u8
    ensures { result ≡ model.mark_of supplied }
{
    match supplied {
        Some(Supplied { mark, .. }) => mark,
        None => 0,
    }
}

impl Engine {
    /// Whether the bytes [address, address + width) are aligned and stand in RAM.
    #[inline(always)]
    pub fn has_aligned(&self, address: u32, width: u32) -> bool
        requires { IsWidth width }
        ensures { result ≡ (address % width == 0 && in_ram (length self.now.ram) address width) }
    {
        is_aligned(address, width) && self.ram.holds(address, width)
    }

    // Loads from RAM, with the width of the operation.
    #[inline(always)]
    fn load_ram(&mut self, size: u32, op: LoadOp, width: u32, rd: u32, address: u32) -> Done
        requires rd { IsRegister rd }
        requires width { width ≡ load_width op }
        requires held { InRam (length self.old.ram) address width }
        ensures { at size result self.new
            ≡ midway self.old (model.loading_ram self.old size op rd address) }
    {
        let value = self.ram.load(address, width);
        Done::Accessed {
            result: self.put(rd, alu::load_result(op, value)),
            access: Access::Load {
                address,
                width,
                value,
                device: false,
                mark: 0,
            },
        }
    }

    // Loads from RAM, with the width of the operation; where the address is misaligned or elsewhere, nothing is done.
    #[inline(always)]
    fn try_load(
        &mut self,
        size: u32,
        op: LoadOp,
        width: u32,
        rd: u32,
        rs1: u32,
        offset: u32,
    ) -> Done
        requires width { width ≡ load_width op }
        requires rd { IsRegister rd }
        requires rs1 { IsRegister rs1 }
        ensures { at size result self.new
            ≡ plainly self.old
            (model.loading self.old None size op rd (sum (register self.old rs1) offset)) }
    {
        let address = self.register(rs1).wrapping_add(offset);
        if self.has_aligned(address, width) {
            self.load_ram(size, op, width, rd, address)
        } else {
            Done::Other
        }
    }

    /// Loads from RAM; where the address is misaligned or elsewhere, nothing is done.
    #[inline(always)]
    pub fn load_plainly(&mut self, size: u32, op: LoadOp, rd: u32, rs1: u32, offset: u32) -> Done
        requires rd { IsRegister rd }
        requires rs1 { IsRegister rs1 }
        ensures { at size result self.new
            ≡ plainly self.old
            (model.loading self.old None size op rd (sum (register self.old rs1) offset)) }
    {
        match op {
            LoadOp::Lb | LoadOp::Lbu => self.try_load(size, op, 1, rd, rs1, offset),
            LoadOp::Lh | LoadOp::Lhu => self.try_load(size, op, 2, rd, rs1, offset),
            LoadOp::Lw => self.try_load(size, op, 4, rd, rs1, offset),
        }
    }

    // Loads what a device register supplied; where there is none, it is exception 5.
    #[inline(always)]
    fn load_device(
        &mut self,
        supplied: Option<Supplied>,
        size: u32,
        op: LoadOp,
        rd: u32,
        address: u32,
    ) -> Done
        requires { IsRegister rd }
        ensures { at size result self.new
            ≡ midway self.old (model.loading_device self.old supplied size op rd address) }
    {
        if !is_device(address) {
            return Done::Raised {
                cause: LOAD_FAULT,
                value: address,
            };
        }
        let value = value_of(supplied);
        Done::Accessed {
            result: self.put(rd, alu::load_result(op, value)),
            access: Access::Load {
                address,
                width: alu::load_width(op),
                value,
                device: true,
                mark: mark_of(supplied),
            },
        }
    }

    /// Loads from RAM or from a device register. A misaligned address is exception 4, another one exception 5.
    #[inline(always)]
    pub fn load(
        &mut self,
        supplied: Option<Supplied>,
        size: u32,
        op: LoadOp,
        rd: u32,
        rs1: u32,
        offset: u32,
    ) -> Done
        requires rd { IsRegister rd }
        requires rs1 { IsRegister rs1 }
        ensures { at size result self.new
            ≡ midway self.old
            (model.loading self.old supplied size op rd (sum (register self.old rs1) offset)) }
    {
        let address = self.register(rs1).wrapping_add(offset);
        let width = alu::load_width(op);
        if !is_aligned(address, width) {
            Done::Raised {
                cause: LOAD_MISALIGNED,
                value: address,
            }
        } else if self.ram.holds(address, width) {
            self.load_ram(size, op, width, rd, address)
        } else {
            self.load_device(supplied, size, op, rd, address)
        }
    }

    // Stores to RAM, with the width of the operation.
    #[inline(always)]
    fn store_ram(&mut self, size: u32, op: StoreOp, width: u32, value: u32, address: u32) -> Done
        requires width { width ≡ store_width op }
        requires held { InRam (length self.old.ram) address width }
        ensures { at size result self.new
            ≡ midway self.old (model.storing_at self.old size op value address false) }
    {
        let low = low_bytes(width, value);
        self.ram.store(address, width, low);
        Done::Accessed {
            result: self.put(0, 0),
            access: Access::Store {
                address,
                width,
                value: low,
                device: false,
            },
        }
    }

    // Stores to RAM, with the width of the operation; where the address is misaligned or elsewhere, nothing is done.
    #[inline(always)]
    fn try_store(
        &mut self,
        size: u32,
        op: StoreOp,
        width: u32,
        rs2: u32,
        rs1: u32,
        offset: u32,
    ) -> Done
        requires width { width ≡ store_width op }
        requires rs2 { IsRegister rs2 }
        requires rs1 { IsRegister rs1 }
        ensures { at size result self.new
            ≡ plainly self.old
            (model.storing self.old size op (register self.old rs2)
            (sum (register self.old rs1) offset)) }
    {
        let address = self.register(rs1).wrapping_add(offset);
        if self.has_aligned(address, width) {
            self.store_ram(size, op, width, self.register(rs2), address)
        } else {
            Done::Other
        }
    }

    /// Stores to RAM; where the address is misaligned or elsewhere, nothing is done.
    #[inline(always)]
    pub fn store_plainly(&mut self, size: u32, op: StoreOp, rs2: u32, rs1: u32, offset: u32) -> Done
        requires rs2 { IsRegister rs2 }
        requires rs1 { IsRegister rs1 }
        ensures { at size result self.new
            ≡ plainly self.old
            (model.storing self.old size op (register self.old rs2)
            (sum (register self.old rs1) offset)) }
    {
        match op {
            StoreOp::Sb => self.try_store(size, op, 1, rs2, rs1, offset),
            StoreOp::Sh => self.try_store(size, op, 2, rs2, rs1, offset),
            StoreOp::Sw => self.try_store(size, op, 4, rs2, rs1, offset),
        }
    }

    // Stores to a device register; where there is none, it is exception 7.
    #[inline(always)]
    fn store_device(&mut self, size: u32, op: StoreOp, value: u32, address: u32) -> Done
        ensures { at size result self.new
            ≡ midway self.old
            (if is_device address
            then model.storing_at self.old size op value address true
            else Raises 7 address) }
    {
        if !is_device(address) {
            return Done::Raised {
                cause: STORE_FAULT,
                value: address,
            };
        }
        let width = alu::store_width(op);
        Done::Accessed {
            result: self.put(0, 0),
            access: Access::Store {
                address,
                width,
                value: low_bytes(width, value),
                device: true,
            },
        }
    }

    /// Stores to RAM or to a device register. A misaligned address is exception 6, another one exception 7.
    #[inline(always)]
    pub fn store(&mut self, size: u32, op: StoreOp, rs2: u32, rs1: u32, offset: u32) -> Done
        requires rs2 { IsRegister rs2 }
        requires rs1 { IsRegister rs1 }
        ensures { at size result self.new
            ≡ midway self.old
            (model.storing self.old size op (register self.old rs2)
            (sum (register self.old rs1) offset)) }
    {
        let address = self.register(rs1).wrapping_add(offset);
        let value = self.register(rs2);
        let width = alu::store_width(op);
        if !is_aligned(address, width) {
            Done::Raised {
                cause: STORE_MISALIGNED,
                value: address,
            }
        } else if self.ram.holds(address, width) {
            self.store_ram(size, op, width, value, address)
        } else {
            self.store_device(size, op, value, address)
        }
    }
}
