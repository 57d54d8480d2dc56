//! A hart with what it was fed for the step to come.
ghost use Rattle.memory_map.specs.declared.TheConstants.{MOST_STEPS};
ghost use Rattle.std.specs.Prelude.{◌≡◌, ◌<◌, ◌*◌, [], ◌∷◌, None};
ghost use Rattle.any_machine.specs.Replay.{load_fault};
ghost use Rattle.any_machine.specs.Held.{wait_fault, held_event, held_next, held_with, word_shown};
ghost use Rattle.any_replay.specs.Standing.{held_of, IsWordHeld, SeesMore};

use any_machine::Hart;
use memory_map::POWER;
use run_events::{Need, Record, Supplied, Watcher, Why};

/// A hart with what it was fed for the step to come.
#[derive(Drop)]
pub struct Standing<H> {
    pub hart: H,
    /// The interrupt lines: bit 0 the timer, bit 1 the external line.
    pub lines: u8,
    /// What a device register gives to the step to come, once that was fed.
    pub load: Option<Supplied>,
    /// The status, where the last step was a power store.
    pub power: Option<u8>,
}

// Why a step with this need and this value cannot be done.
fn load_fault_of(need: Need, load: Option<Supplied>) -> Option<Why>
    ensures { result ≡ load_fault need load }
{
    match (need, load) {
        (Need::Load { .. }, None) => Some(Why::MissingLoad),
        (Need::Nothing, Some(_)) => Some(Why::UnusedLoad),
        _ => None,
    }
}

/// Why the step to come cannot be done.
pub fn wait<H: Hart>(standing: &Standing<H>) -> Option<Why>
    ensures { result ≡ wait_fault H.machine (held_of H.done standing.now) }
{
    load_fault_of(standing.hart.next_need(standing.lines), standing.load)
}

/// Does the step to come, which has the value that it needs and no other, and shows it. It stands apart, so that the hart
/// writes the event where the watcher reads it.
#[inline(never)]
pub fn step<H: Hart, W: Watcher>(standing: &mut Standing<H>, seen: &mut W)
    requires room { H.done standing.old.hart < MOST_STEPS }
    requires ready { wait_fault H.machine (held_of H.done standing.old) ≡ None }
    requires size { H.ram_size standing.old.hart ≡ 1024 * W.ram_kib seen.old }
    ensures held { held_of H.done standing.new ≡ held_next H.machine (held_of H.done standing.old) }
    ensures shown { SeesMore (W.has_seen seen.old) (W.has_seen seen.new)
        (held_event H.machine (held_of H.done standing.old) ∷ []) }
    ensures ram { H.ram_size standing.new.hart ≡ H.ram_size standing.old.hart }
    ensures size { W.ram_kib seen.new ≡ W.ram_kib seen.old }
    ensures made { W.make seen.new ≡ W.make seen.old }
{
    let event = standing.hart.step(standing.lines, standing.load);
    standing.load = None;
    standing.power = event.byte_stored(POWER);
    seen.see(&event);
}

/// Takes a record that has no fault, where the steps below its number are done: it keeps the lines or the value, or has
/// the word written and shows that.
pub fn apply<H: Hart, W: Watcher>(standing: &mut Standing<H>, item: &Record, seen: &mut W)
    requires held { IsWordHeld H.machine standing.old.hart item.now }
    requires size { H.ram_size standing.old.hart ≡ 1024 * W.ram_kib seen.old }
    ensures held { held_of H.done standing.new
        ≡ held_with H.machine item.now (held_of H.done standing.old) }
    ensures shown { SeesMore (W.has_seen seen.old) (W.has_seen seen.new)
        (word_shown H.machine item.now (held_of H.done standing.old)) }
    ensures ram { H.ram_size standing.new.hart ≡ H.ram_size standing.old.hart }
    ensures size { W.ram_kib seen.new ≡ W.ram_kib seen.old }
    ensures made { W.make seen.new ≡ W.make seen.old }
{
    match item {
        Record::Lines { bits, .. } => standing.lines = *bits,
        Record::Load { value, mark, .. } => {
            standing.load = Some(Supplied {
                value: *value,
                mark: *mark,
            });
        }
        Record::Dma {
            address,
            word,
            mark,
            ..
        } => {
            let event = standing.hart.dma(*address, *word, *mark);
            seen.see(&event);
        }
        Record::Reach { .. } | Record::End { .. } => {}
    }
}
