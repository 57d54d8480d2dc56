//! The steps below a number, done and shown.
ghost use Rattle.memory_map.specs.declared.TheConstants.{MOST_STEPS};
ghost use Rattle.std.specs.Prelude.{◌≡◌, ◌-◌, ◌*◌, ◌≤◌, None};
ghost use Rattle.any_machine.specs.Held.{run_held, run_shown};
ghost use Rattle.any_machine.specs.Running.{RunSoFar};
ghost use Rattle.any_replay.specs.Standing.{held_of, SeesMore};

use crate::standing::{Standing, step, wait};
use any_machine::Hart;
use run_events::Watcher;

// Does the step to come, if it is below a number, with the value that waits for it, where the hart does that fast.
#[inline(always)]
fn feed<H: Hart, W: Watcher>(standing: &mut Standing<H>, number: u32, seen: &mut W)
    requires number { number ≤ MOST_STEPS }
    requires runs { standing.old.power ≡ None }
    requires size { H.ram_size standing.old.hart ≡ 1024 * W.ram_kib seen.old }
    ensures runs { RunSoFar H.machine number (held_of H.done standing.old)
        (held_of H.done standing.new)
        (W.has_seen seen.old) (W.has_seen seen.new) }
    ensures rises { H.done standing.old.hart ≤ H.done standing.new.hart }
    ensures power { standing.new.power ≡ None }
    ensures ram { H.ram_size standing.new.hart ≡ H.ram_size standing.old.hart }
    ensures size { W.ram_kib seen.new ≡ W.ram_kib seen.old }
    ensures made { W.make seen.new ≡ W.make seen.old }
{
    if standing.hart.steps() >= number {
        return;
    }
    if let Some(supplied) = standing.load {
        if standing.hart.feed_fast(standing.lines, supplied, seen) {
            standing.load = None;
        }
    }
}

// Does the steps below a number that the hart does fast.
#[inline(always)]
fn run_fast<H: Hart, W: Watcher>(standing: &mut Standing<H>, number: u32, seen: &mut W)
    requires number { number ≤ MOST_STEPS }
    requires runs { standing.old.power ≡ None }
    requires size { H.ram_size standing.old.hart ≡ 1024 * W.ram_kib seen.old }
    ensures runs { RunSoFar H.machine number (held_of H.done standing.old)
        (held_of H.done standing.new)
        (W.has_seen seen.old) (W.has_seen seen.new) }
    ensures rises { H.done standing.old.hart ≤ H.done standing.new.hart }
    ensures power { standing.new.power ≡ None }
    ensures ram { H.ram_size standing.new.hart ≡ H.ram_size standing.old.hart }
    ensures size { W.ram_kib seen.new ≡ W.ram_kib seen.old }
    ensures made { W.make seen.new ≡ W.make seen.old }
{
    feed(standing, number, seen);
    if standing.load.is_none() {
        standing.hart.run_fast(standing.lines, number, seen);
    }
}

/// Does the steps below a number and shows each, up to one that cannot be done or a power store.
pub fn run_to<H: Hart, W: Watcher>(standing: &mut Standing<H>, number: u32, seen: &mut W)
    requires number { number ≤ MOST_STEPS }
    requires size { H.ram_size standing.old.hart ≡ 1024 * W.ram_kib seen.old }
    ensures held { held_of H.done standing.new
        ≡ run_held H.machine (number - H.done standing.old.hart) (held_of H.done standing.old) }
    ensures shown { SeesMore (W.has_seen seen.old) (W.has_seen seen.new)
        (run_shown H.machine (number - H.done standing.old.hart) (held_of H.done standing.old)) }
    ensures ram { H.ram_size standing.new.hart ≡ H.ram_size standing.old.hart }
    ensures size { W.ram_kib seen.new ≡ W.ram_kib seen.old }
    ensures made { W.make seen.new ≡ W.make seen.old }
{
    'turns: while standing.power.is_none() {
        run_fast(standing, number, seen);
        if standing.hart.steps() >= number {
            return;
        }
        if wait(standing).is_some() {
            return;
        }
        step(standing, seen);
    }
}
