//! Plain steps that are shown: the counters rise once, at the end.
ghost use Rattle.memory_map.specs.declared.TheConstants.{MOST_STEPS};
ghost use Rattle.std.specs.Prelude.{◌≡◌, false, IsTrue, ◌+◌, ◌-◌, ◌*◌, ◌<◌, ◌≤◌, List, ◌∷◌, [], ◌++◌, Some, is_some, length};
ghost use Rattle.any_machine.specs.Running.{RunSoFar, unfed};
ghost use Rattle.run_events.specs.declared.event.Event.{Event};
ghost use Rattle.run_events.specs.Event.{Fits};
ghost use Rattle.hart_model.specs.Aligned.{IsAligned};
ghost use Rattle.hart_model.specs.Machine.{hart};
ghost use Rattle.hart_model.specs.State.{State};
ghost use Rattle.rv_cpu.specs.Plain.{is_plain};
ghost use Rattle.rv_cpu.specs.PlainRun.{are_plain, plain_after};
ghost use Rattle.rv_cpu.specs.Midway.{at};
ghost use Rattle.rv_cpu.specs.Told.{events_told, idle_told, next_told, state_told, told_midway};

use crate::done::Done;
use crate::engine::Engine;
use crate::step::SIZE;
use run_events::{Access, Event, Told, Watcher, may_announce, show};
use rv_decode::decode;

impl Engine {
    // Ends a plain step whose instruction left this, and shows it; of another one it shows nothing. The counters are so many
    // steps behind, and stay where they are.
    fn tell<W: Watcher>(
        &mut self,
        behind: u32,
        told: Told,
        word: u32,
        done: Done,
        seen: &mut W,
    ) -> bool
        requires room { self.old.step + behind < MOST_STEPS }
        requires fits { (event : Event) (next : State)
            → told_midway behind told word (at 4 done self.old) ≡ Some (event, next)
            → Fits (W.ram_kib seen.old) event }
        ensures answer { result ≡ is_some (told_midway behind told word (at 4 done self.old)) }
        ensures state { self.new
            ≡ state_told self.old (told_midway behind told word (at 4 done self.old)) }
        ensures seen { (h : List Event)
            → W.has_seen seen.old h
            → W.has_seen seen.new
            (h ++ events_told (told_midway behind told word (at 4 done self.old))) }
        ensures size { W.ram_kib seen.new ≡ W.ram_kib seen.old }
        ensures made { W.make seen.new ≡ W.make seen.old }
    {
        let (result, next, access) = match done {
            Done::Quiet { result, next } => (result, next, Access::Quiet),
            Done::Accessed { result, access } => (result, self.next(SIZE), access),
            _ => return false,
        };
        let event = Event::Exec {
            step: self.steps + behind,
            pc: self.pc,
            word,
            next,
            result,
            access,
            told,
        };
        self.pc = next;
        show(event, seen);
        true
    }

    // Does the instruction `word` at the pc, which is slti x0, x0, k, and shows it as that of this step: it may announce
    // something, and does nothing else. The counters stay where they are.
    #[cold]
    #[inline(never)]
    fn show_idle<W: Watcher>(&mut self, step: u32, word: u32, seen: &mut W)
        requires fits { Fits (W.ram_kib seen.old) (idle_told step word self.old).0 }
        ensures state { self.new ≡ (idle_told step word self.old).1 }
        ensures seen { (h : List Event)
            → W.has_seen seen.old h
            → W.has_seen seen.new (h ++ (idle_told step word self.old).0 ∷ []) }
        ensures size { W.ram_kib seen.new ≡ W.ram_kib seen.old }
        ensures made { W.make seen.new ≡ W.make seen.old }
    {
        let event = Event::Exec {
            step,
            pc: self.pc,
            word,
            next: self.next(SIZE),
            result: self.put(0, 0),
            access: Access::Quiet,
            told: self.argument_registers(),
        };
        self.pc = self.next(SIZE);
        seen.see(&event);
    }

    // Does the next step where it is a plain one, and shows it; else nothing. The counters are so many steps behind, and
    // stay where they are. No interrupt waits. The words that may announce something are done apart, so that the compiler
    // knows of the others that they announce nothing: no watcher asks them again, and nothing is kept of x10 to x12.
    fn show_next<W: Watcher>(&mut self, lines: u8, behind: u32, seen: &mut W) -> bool
        requires room { self.old.step + behind < MOST_STEPS }
        requires fits { (event : Event) (next : State)
            → next_told behind lines self.old ≡ Some (event, next)
            → Fits (W.ram_kib seen.old) event }
        ensures answer { result ≡ is_some (next_told behind lines self.old) }
        ensures state { self.new ≡ state_told self.old (next_told behind lines self.old) }
        ensures seen { (h : List Event)
            → W.has_seen seen.old h
            → W.has_seen seen.new (h ++ events_told (next_told behind lines self.old)) }
        ensures size { W.ram_kib seen.new ≡ W.ram_kib seen.old }
        ensures made { W.make seen.new ≡ W.make seen.old }
    {
        if !self.ram.holds(self.pc, SIZE) {
            return false;
        }
        let word = self.ram.load(self.pc, SIZE);
        if may_announce(word) {
            self.show_idle(self.steps + behind, word, seen);
            return true;
        }
        let Some(instr) = decode(word) else {
            return false;
        };
        let told = self.argument_registers();
        let done = self.execute_plainly(lines, word, SIZE, instr);
        self.tell(behind, told, word, done, seen)
    }

    /// Does the next steps with these interrupt lines as long as they are plain ones, and only those below a number, and
    /// shows each. All of a replay's time goes here. It stands apart for each watcher, so that it is small enough to have
    /// the whole step and the watcher's look in it.
    #[inline(never)]
    pub fn run_shown<W: Watcher>(&mut self, lines: u8, number: u32, seen: &mut W)
        requires number { number ≤ MOST_STEPS }
        requires aligned { IsAligned self.old }
        requires size { length self.old.ram ≡ 1024 * W.ram_kib seen.old }
        ensures runs { RunSoFar hart number (unfed (λ (s : State). s.step) lines self.old)
            (unfed (λ (s : State). s.step) lines self.new) (W.has_seen seen.old)
            (W.has_seen seen.new) }
        ensures plain { IsTrue (are_plain lines (self.new.step - self.old.step) self.old) }
        ensures state { plain_after lines (self.new.step - self.old.step) self.old ≡ self.new }
        ensures stops { self.new.step < number → is_plain self.new lines ≡ false }
        ensures rises { self.old.step ≤ self.new.step }
        ensures aligned { IsAligned self.new }
        ensures ram { length self.new.ram ≡ length self.old.ram }
        ensures size { W.ram_kib seen.new ≡ W.ram_kib seen.old }
        ensures made { W.make seen.new ≡ W.make seen.old }
    {
        if self.steps >= number {
            return;
        }
        if self.csrs.pending(lines).is_some() {
            return;
        }
        let most = number - self.steps;
        let mut behind = 0;
        'steps: while behind < most {
            if !self.show_next(lines, behind, seen) {
                break 'steps;
            }
            behind += 1;
        }
        self.catch_up(self.pc, behind);
    }
}
