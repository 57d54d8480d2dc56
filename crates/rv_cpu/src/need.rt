//! What a step has to be given.
ghost use Rattle.std.specs.Prelude.{◌≡◌};
ghost use Rattle.rv_decode.specs.Valid.{IsValid};
ghost use Rattle.hart_model.specs.Needs.{need_at, need_by};
ghost use Rattle.hart_model.specs.Operations.{load_width};
ghost use Rattle.hart_model.specs.Step.{needs};

use crate::accesses::is_aligned;
use crate::alu;
use crate::engine::Engine;
use crate::step::SIZE;
use memory_map::is_device;
use run_events::Need;
use rv_decode::{Instr, LoadOp, decode};

impl Engine {
    /// What a load has to be given.
    #[inline(always)]
    pub fn need_of_load(&self, op: LoadOp, address: u32) -> Need
        ensures { result ≡ need_at self.now address (load_width op) }
    {
        let width = alu::load_width(op);
        if is_aligned(address, width) && !self.ram.holds(address, width) && is_device(address) {
            Need::Load { address, width }
        } else {
            Need::Nothing
        }
    }

    // What an instruction has to be given.
    fn need_of_instr(&self, instr: Instr) -> Need
        requires { IsValid instr }
        ensures { result ≡ need_by self.now instr }
    {
        match instr {
            Instr::Load { op, rs1, imm, .. } => {
                self.need_of_load(op, self.register(rs1).wrapping_add(imm.cast_unsigned()))
            }
            _ => Need::Nothing,
        }
    }

    /// What the next step, with these interrupt lines, has to be given.
    #[tactic(auto, using(hart_model::proofs::NeedLaws::need_by_is, hart_model::proofs::NeedLaws::raises_needs), unfolding(hart_model::specs::Step::cpu))]
    pub fn next_need(&self, lines: u8) -> Need
        ensures { result ≡ needs self.now lines }
    {
        if self.csrs.pending(lines).is_some() || !self.ram.holds(self.pc, SIZE) {
            return Need::Nothing;
        }
        let word = self.ram.load(self.pc, SIZE);
        match decode(word) {
            Some(instr) => self.need_of_instr(instr),
            None => Need::Nothing,
        }
    }
}
