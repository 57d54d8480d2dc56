//! Instructions that access no data: they write a register, or go elsewhere. (Unprivileged manual, 2.4 and 2.5.)
ghost use Rattle.std.specs.Prelude.{◌≡◌, if◌then◌else◌};
ghost use Rattle.rv_decode.specs.Valid.{IsRegister};
ghost use Rattle.hart_model.specs.Operations.{sum};
ghost use Rattle.hart_model.specs.Effect as model;
ghost use Rattle.hart_model.specs.Effect.{Does};
ghost use Rattle.rv_cpu.specs.Midway.{at, midway, plainly};

use crate::done::Done;
use crate::engine::Engine;
use memory_map::GRAIN;
use rv_csr::causes::INSTRUCTION_MISALIGNED;

impl Engine {
    /// Goes on to the instruction after this one, which writes nothing.
    #[inline(always)]
    pub fn go_on(&mut self, size: u32) -> Done
        ensures { at size result self.new ≡ midway self.old (Does (model.going_on self.old size)) }
    {
        self.write(size, 0, 0)
    }

    /// Writes a register, and goes on to the instruction after this one.
    #[inline(always)]
    pub fn write(&mut self, size: u32, rd: u32, value: u32) -> Done
        requires { IsRegister rd }
        ensures { at size result self.new
            ≡ midway self.old (Does (model.writing self.old size rd value)) }
    {
        Done::Quiet {
            result: self.put(rd, value),
            next: self.next(size),
        }
    }

    // Goes to a target, with the address of the instruction after this one in rd.
    #[inline(always)]
    fn link(&mut self, size: u32, rd: u32, target: u32) -> Done
        requires { IsRegister rd }
        ensures { at size result self.new
            ≡ midway self.old
            (Does (record (model.writing self.old size rd (sum self.old.pc size))
            { next = target })) }
    {
        let link = self.next(size);
        Done::Quiet {
            result: self.put(rd, link),
            next: target,
        }
    }

    /// Jumps to a target, with the address of the instruction after this one in rd. Where no instruction can begin at
    /// the target, it is exception 0.
    #[inline(always)]
    pub fn jump(&mut self, size: u32, rd: u32, target: u32) -> Done
        requires { IsRegister rd }
        ensures { at size result self.new
            ≡ midway self.old (model.jumping self.old size rd target) }
    {
        if target % GRAIN == 0 {
            self.link(size, rd, target)
        } else {
            Done::Raised {
                cause: INSTRUCTION_MISALIGNED,
                value: target,
            }
        }
    }

    /// `jump` where it raises no exception; else nothing.
    #[inline(always)]
    pub fn jump_plainly(&mut self, size: u32, rd: u32, target: u32) -> Done
        requires { IsRegister rd }
        ensures { at size result self.new
            ≡ plainly self.old (model.jumping self.old size rd target) }
    {
        if target % GRAIN == 0 {
            self.link(size, rd, target)
        } else {
            Done::Other
        }
    }

    /// `branch` where it raises no exception; else nothing.
    #[inline(always)]
    pub fn branch_plainly(&mut self, size: u32, taken: bool, target: u32) -> Done
        ensures { at size result self.new
            ≡ plainly self.old
            (if taken
            then model.jumping self.old size 0 target
            else Does (model.going_on self.old size)) }
    {
        if taken {
            self.jump_plainly(size, 0, target)
        } else {
            self.go_on(size)
        }
    }

    /// Branches to a target where the test on two registers holds; else goes on. Where the branch is taken and no instruction
    /// can begin at the target, it is exception 0.
    pub fn branch(&mut self, size: u32, taken: bool, target: u32) -> Done
        ensures { at size result self.new
            ≡ midway self.old
            (if taken
            then model.jumping self.old size 0 target
            else Does (model.going_on self.old size)) }
    {
        if taken {
            self.jump(size, 0, target)
        } else {
            self.go_on(size)
        }
    }
}
