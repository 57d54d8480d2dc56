//! A hart in code, which a machine of the definitions describes.
ghost use Rattle.memory_map.specs.declared.TheConstants.{MOST_STEPS};
ghost use Rattle.std.specs.Prelude.{◌≡◌, ◌*◌, ◌<◌, ◌≤◌, ℕ, false, IsTrue, is_some};
ghost use Rattle.run_events.specs.Event.{Fits};
ghost use Rattle.any_machine.specs.Machine.{CountsSteps, Machine, is_load};
ghost use Rattle.any_machine.specs.Running.{IsFed, RunSoFar, unfed};

use run_events::{Event, Need, Supplied, Watcher};

/// A hart with its RAM, which is fed what its steps take from outside. It knows which addresses are device registers, and
/// nothing else of devices.
pub trait Hart {
    /// The machine that it is.
    ghost machine: { Machine Self };

    /// The number of steps that it has done.
    ghost done: { Self → ℕ };

    /// The number of bytes of its RAM.
    ghost ram_size: { Self → ℕ };

    /// The number of steps done.
    fn steps(&self) -> u32
        ensures { result ≡ done self.now };

    /// What the next step with these interrupt lines has to be given.
    fn next_need(&self, lines: u8) -> Need
        ensures { result ≡ machine.needs self.now lines };

    /// Whether the address is that of an aligned word in RAM.
    fn holds(&self, address: u32) -> bool
        ensures { result ≡ machine.holds self.now address };

    /// Does the next step with these lines and what the device register that it loads gives, and answers what it shows.
    fn step(&mut self, lines: u8, supplied: Option<Supplied>) -> Event
        requires room { done self.old < MOST_STEPS }
        requires given { is_load (machine.needs self.old lines) ≡ is_some supplied }
        ensures step { machine.step self.old lines supplied ≡ (result, self.new) }
        ensures size { ram_size self.new ≡ ram_size self.old }
        ensures fits { (ram_kib : ℕ) → ram_size self.old ≡ 1024 * ram_kib → Fits ram_kib result };

    /// Does the steps to come as long as the hart does them fast, and only those below a number, and shows each. None of
    /// them loads a device register or stores a status at the power register. A hart need not have a fast way: it may do none.
    fn run_fast<W: Watcher>(&mut self, lines: u8, number: u32, seen: &mut W)
        requires number { number ≤ MOST_STEPS }
        requires size { ram_size self.old ≡ 1024 * W.ram_kib seen.old }
        ensures runs { RunSoFar machine number (unfed done lines self.old)
            (unfed done lines self.new)
            (W.has_seen seen.old) (W.has_seen seen.new) }
        ensures rises { done self.old ≤ done self.new }
        ensures ram { ram_size self.new ≡ ram_size self.old }
        ensures kib { W.ram_kib seen.new ≡ W.ram_kib seen.old }
        ensures made { W.make seen.new ≡ W.make seen.old };

    /// Does the next step with these lines and with what the device register that it loads supplied, where the hart has a
    /// short way to do so, and shows it. Where it answers false, nothing was done.
    fn feed_fast<W: Watcher>(&mut self, lines: u8, supplied: Supplied, seen: &mut W) -> bool
        requires room { done self.old < MOST_STEPS }
        requires size { ram_size self.old ≡ 1024 * W.ram_kib seen.old }
        ensures fed { IsTrue result → IsFed machine lines supplied self.old self.new
            (W.has_seen seen.old) (W.has_seen seen.new) }
        ensures same { result ≡ false → self.new ≡ self.old }
        ensures unseen { result ≡ false → seen.new ≡ seen.old }
        ensures ram { ram_size self.new ≡ ram_size self.old }
        ensures kib { W.ram_kib seen.new ≡ W.ram_kib seen.old }
        ensures made { W.make seen.new ≡ W.make seen.old };

    /// The disk writes a word into RAM before the next step. It answers what that shows.
    fn dma(&mut self, address: u32, word: u32, mark: u8) -> Event
        requires { IsTrue (machine.holds self.old address) }
        ensures touch { machine.touch self.old
            (record { address = address; word = word; mark = mark })
            ≡ (result, self.new) }
        ensures size { ram_size self.new ≡ ram_size self.old }
        ensures fits { (ram_kib : ℕ) → ram_size self.old ≡ 1024 * ram_kib → Fits ram_kib result };

    /// Each step counts one, and its events tell its number.
    ghost counts: { CountsSteps machine done };

    /// What RAM holds depends on its size alone.
    ghost sized: { (s t : Self) (address : ℕ) → ram_size s ≡ ram_size t
        → machine.holds s address ≡ machine.holds t address };
}
