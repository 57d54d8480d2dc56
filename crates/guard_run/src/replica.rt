//! A replica: an analysis of a run, and the replay that shows it what the records say.
ghost use Rattle.memory_map.specs.declared.TheConstants.{GRAIN, LEAST_RAM_KIB, MOST_RAM_KIB};
ghost use Rattle.std.specs.Prelude.{◌≡◌, ◌*◌, ◌%◌, ◌≤◌, ◌++◌, ◌∷◌, IfOk, List};
ghost use Rattle.any_machine.specs.Replay.{outcome, shown_by};
ghost use Rattle.analysis_set.specs.Analysis.{HasSeen, kib_of, made_of};
ghost use Rattle.guard_run.specs.Verdicts.{verdict_from};
ghost use Rattle.hart_model.specs.Machine.{hart};
ghost use Rattle.hart_model.specs.State.{State};
ghost use Rattle.machine_model.specs.Image.{IsLoadable};
ghost use Rattle.replayer.specs.Replays.{Replays, ram_size_of};
ghost use Rattle.run_events.specs.declared.event.Event.{Event};
ghost use Rattle.run_events.specs.declared.record.Record.{Record as Item};
ghost use Rattle.run_events.specs.Record.{IsRecord};

use analysis_set::{Analysis, AnyAnalysis};
use elf_image::Image;
use gate_core::Verdict;
use memory_map::{CrossesThreads, NoMemory};
use replayer::Replay;
use run_events::{Diverged, Kind, Record};
use std::alloc::Global;
use turn_run::Follower;

/// An analysis of a guest that is given a list of records, whatever it is: it replays the list, and sees what the replay
/// shows. It knows the guest and its kind of analysis, and no call changes them.
#[derive(Drop)]
pub struct Replica {
    image: Image,
    ram_kib: u32,
    kind: Kind,
    replay: Replay,
    analysis: AnyAnalysis,
    ghost size: { ram_size_of replay ≡ 1024 * kib_of analysis },
}

impl CrossesThreads for Replica {}

impl Replica {
    ghost use Rattle.guard_run.specs.Replicas.{IsFresh, analysis_of};

    /// A replica of the guest of this image and `ram_kib` KiB of RAM, with an analysis of this kind, that was given no
    /// record. It is the only call that takes memory.
    pub fn new(alloc: Global, image: &Image, ram_kib: u32, kind: Kind) -> Result<Replica, NoMemory>
        requires least { LEAST_RAM_KIB ≤ ram_kib }
        requires most { ram_kib ≤ MOST_RAM_KIB }
        requires loadable { IsLoadable (1024 * ram_kib) image.now.segments }
        requires aligned { image.now.entry % GRAIN ≡ 0 }
        ensures { IfOk result (λ replica. IsFresh image.now ram_kib kind replica) }
    {
        Ok(Replica {
            image: image.copy(alloc)?,
            ram_kib,
            kind,
            replay: Replay::new(alloc, image, ram_kib)?,
            analysis: AnyAnalysis::new(alloc, kind, image, ram_kib)?,
        })
    }

    /// Its analysis.
    pub fn analysis(&self) -> &AnyAnalysis
        ensures { result.now ≡ analysis_of self.now }
    {
        &self.analysis
    }
}

// An analysis with a first finding approves the steps below it and refuses the rest; one with none approves all that was
// executed.
fn verdict_of(first: Option<u32>, reach: u32) -> Verdict
    ensures { result ≡ verdict_from first reach }
{
    match first {
        Some(step) => Verdict {
            approved: step,
            refused: true,
        },
        None => Verdict {
            approved: reach,
            refused: false,
        },
    }
}

// Replays the next record, and shows the analysis what it says. The kind is asked once a record and not once a step, so
// that each analysis has a loop of its own.
fn take_shown(
    replay: &mut Replay,
    item: &Record,
    analysis: &mut AnyAnalysis,
) -> Result<(), Diverged>
    requires item { IsRecord item.now }
    requires size { ram_size_of replay.old ≡ 1024 * kib_of analysis.old }
    ensures replays { (start : State) (before : List Item)
        → Replays start before replay.old
        → Replays start (item.now ∷ before) replay.new }
    ensures shown { (start : State) (before : List Item) (h : List Event)
        → Replays start before replay.old
        → HasSeen analysis.old (h ++ shown_by hart start (outcome hart start before))
        → HasSeen analysis.new (h ++ shown_by hart start (outcome hart start (item.now ∷ before))) }
    ensures ram { ram_size_of replay.new ≡ ram_size_of replay.old }
    ensures size { kib_of analysis.new ≡ kib_of analysis.old }
    ensures made { made_of analysis.new ≡ made_of analysis.old }
{
    match analysis {
        AnyAnalysis::Heap(redzones) => replay.take(item, redzones),
        AnyAnalysis::Taint(taint) => replay.take(item, taint),
        AnyAnalysis::Calls(calls) => replay.take(item, calls),
        AnyAnalysis::Cover(coverage) => replay.take(item, coverage),
        AnyAnalysis::Locks(locks) => replay.take(item, locks),
    }
}

impl Follower for Replica {
    ghost use Rattle.guard_run.specs.Beginnings.{replica_rises, replica_starts};
    ghost use Rattle.guard_run.specs.Replicas.{replicas_follow};

    ghost following = { replicas_follow };

    ghost starts = { replica_starts };

    ghost rises = { replica_rises };

    fn take(&mut self, item: &Record) {
        // After a fault of the list the replay stands still, and so does what is said of it.
        let _fault = take_shown(&mut self.replay, item, &mut self.analysis);
    }

    fn verdict(&self) -> Verdict {
        verdict_of(self.analysis.first(), self.replay.reach())
    }
}
