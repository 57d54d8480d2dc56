//! A step that loads a device register, done at once with what the register supplied.
ghost use Rattle.memory_map.specs.declared.TheConstants.{MOST_STEPS};
ghost use Rattle.std.specs.Prelude.{◌≡◌, ◌*◌, ◌<◌, IfSome, IsTrue, Some, false, is_some, length};
ghost use Rattle.any_machine.specs.Machine.{is_load};
ghost use Rattle.any_machine.specs.Running.{IsFed};
ghost use Rattle.hart_model.specs.Aligned.{IsAligned};
ghost use Rattle.hart_model.specs.Effect.{loading};
ghost use Rattle.hart_model.specs.Machine.{hart};
ghost use Rattle.hart_model.specs.Needs.{need_at, need_by};
ghost use Rattle.hart_model.specs.Operations.{load_width, sum};
ghost use Rattle.hart_model.specs.State.{register};
ghost use Rattle.hart_model.specs.Step.{cpu, needs, outcome, step_by};
ghost use Rattle.rv_decode.specs.Valid.{IsRegister, IsValid};

use crate::engine::Engine;
use crate::step::SIZE;
use run_events::{Event, Need, Supplied, Watcher, show};
use rv_decode::{Instr, LoadOp, decode};

impl Engine {
    // Does the step of a load where it is one of a device register, which supplied this; else nothing.
    #[inline(always)]
    fn load_fed(
        &mut self,
        supplied: Supplied,
        word: u32,
        op: LoadOp,
        rd: u32,
        rs1: u32,
        offset: u32,
    ) -> Option<Event>
        requires rd { IsRegister rd }
        requires rs1 { IsRegister rs1 }
        requires room { self.old.step < MOST_STEPS }
        ensures loads { is_some result
            ≡ is_load (need_at self.old (sum (register self.old rs1) offset) (load_width op)) }
        ensures step { IfSome result (λ event. step_by self.old word
            (loading self.old (Some supplied) 4 op rd (sum (register self.old rs1) offset))
            ≡ (event, self.new)) }
        ensures none { is_some result ≡ false → self.new ≡ self.old }
    {
        match self.need_of_load(op, self.register(rs1).wrapping_add(offset)) {
            Need::Load { .. } => {
                Some(self.run_load(Some(supplied), word, SIZE, op, rd, rs1, offset))
            }
            Need::Nothing => None,
        }
    }

    // Does the step of an instruction where it loads a device register, which supplied this; else nothing.
    #[tactic(auto, unfolding(hart_model::specs::Step::outcome))]
    #[inline(always)]
    fn run_fed(&mut self, lines: u8, supplied: Supplied, word: u32, instr: Instr) -> Option<Event>
        requires valid { IsValid instr }
        requires room { self.old.step < MOST_STEPS }
        ensures loads { is_some result ≡ is_load (need_by self.old instr) }
        ensures step { IfSome result (λ event. step_by self.old word
            (outcome self.old lines (Some supplied) word 4 instr)
            ≡ (event, self.new)) }
        ensures none { is_some result ≡ false → self.new ≡ self.old }
    {
        // the contract alone speaks of the lines
        let _lines = lines;
        match instr {
            Instr::Load { op, rd, rs1, imm } => {
                self.load_fed(supplied, word, op, rd, rs1, imm.cast_unsigned())
            }
            _ => None,
        }
    }

    /// Does the next step where it loads a device register, which supplied this, and answers what it shows; else nothing.
    #[tactic(auto, using(hart_model::proofs::NeedLaws::need_by_is, hart_model::proofs::NeedLaws::raises_needs), unfolding(hart_model::specs::Step::cpu, hart_model::specs::Step::step_by))]
    #[inline(always)]
    pub fn step_fed(&mut self, lines: u8, supplied: Supplied) -> Option<Event>
        requires room { self.old.step < MOST_STEPS }
        ensures loads { is_some result ≡ is_load (needs self.old lines) }
        ensures step { IfSome result (λ event.
            cpu self.old lines (Some supplied) ≡ (event, self.new)) }
        ensures none { is_some result ≡ false → self.new ≡ self.old }
    {
        if self.csrs.pending(lines).is_some() || !self.ram.holds(self.pc, SIZE) {
            return None;
        }
        let word = self.ram.load(self.pc, SIZE);
        match decode(word) {
            Some(instr) => self.run_fed(lines, supplied, word, instr),
            None => None,
        }
    }

    /// Does the next step where it loads a device register, which supplied this, and shows it; else it answers false.
    pub fn feed_shown<W: Watcher>(&mut self, lines: u8, supplied: Supplied, seen: &mut W) -> bool
        requires room { self.old.step < MOST_STEPS }
        requires aligned { IsAligned self.old }
        requires size { length self.old.ram ≡ 1024 * W.ram_kib seen.old }
        ensures loads { result ≡ is_load (needs self.old lines) }
        ensures fed { IsTrue result → IsFed hart lines supplied self.old self.new
            (W.has_seen seen.old) (W.has_seen seen.new) }
        ensures same { result ≡ false → self.new ≡ self.old }
        ensures unseen { result ≡ false → seen.new ≡ seen.old }
        ensures aligned { IsAligned self.new }
        ensures ram { length self.new.ram ≡ length self.old.ram }
        ensures size { W.ram_kib seen.new ≡ W.ram_kib seen.old }
        ensures made { W.make seen.new ≡ W.make seen.old }
    {
        match self.step_fed(lines, supplied) {
            Some(event) => {
                show(event, seen);
                true
            }
            None => false,
        }
    }
}
