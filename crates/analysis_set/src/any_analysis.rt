//! The enum of analyses.
ghost use Rattle.memory_map.specs.declared.TheConstants.{LEAST_RAM_KIB, MOST_RAM_KIB};
ghost use Rattle.std.specs.Prelude.{◌≡◌, ◌≤◌, ℕ, List, [], ◌∷◌, ◌++◌, IfOk};
ghost use Rattle.run_events.specs.declared.event.Event.{Event};
ghost use Rattle.run_events.specs.Event.{Fits};
ghost use Rattle.analysis_model.specs.Made.{make_of, kind_made_of};
ghost use Rattle.analysis_set.specs.Analysis.{HasSeen, kib_of, made_of};

use crate::Analysis;
use call_stacks::Calls;
use coverage_map::Coverage;
use elf_image::Image;
use lock_rules::Locks;
use memory_map::{CrossesThreads, NoMemory};
use redzones::Redzones;
use run_events::{Event, Finding, Kind, Watcher};
use std::alloc::Global;
use taint_marks::Taint;

/// One analysis of a run.
#[derive(Drop)]
pub enum AnyAnalysis {
    /// The guest's heap.
    Heap(Redzones),
    /// Marked input.
    Taint(Taint),
    /// Calls and returns.
    Calls(Calls),
    /// Coverage.
    Cover(Coverage),
    /// Locks.
    Locks(Locks),
}

impl CrossesThreads for AnyAnalysis {}

impl AnyAnalysis {
    /// The analysis of this kind, before the first event of a run of this guest. It is the only call that takes memory.
    pub fn new(
        alloc: Global,
        kind: Kind,
        image: &Image,
        ram_kib: u32,
    ) -> Result<AnyAnalysis, NoMemory>
        requires least { LEAST_RAM_KIB ≤ ram_kib }
        requires most { ram_kib ≤ MOST_RAM_KIB }
        ensures seen { IfOk result (λ analysis. HasSeen analysis []) }
        ensures size { IfOk result (λ analysis. kib_of analysis ≡ ram_kib) }
        ensures made { IfOk result (λ analysis. made_of analysis ≡ make_of kind image.now) }
    {
        Ok(match kind {
            Kind::Heap => AnyAnalysis::Heap(Redzones::new(alloc, image, ram_kib)?),
            Kind::Taint => AnyAnalysis::Taint(Taint::new(alloc, image, ram_kib)?),
            Kind::Calls => AnyAnalysis::Calls(Calls::new(alloc, image, ram_kib)?),
            Kind::Cover => AnyAnalysis::Cover(Coverage::new(alloc, image, ram_kib)?),
            Kind::Locks => AnyAnalysis::Locks(Locks::new(alloc, image, ram_kib)?),
        })
    }

    /// The kind of the analysis.
    pub fn kind(&self) -> Kind
        ensures { result ≡ kind_made_of (made_of self.now) }
    {
        match self {
            AnyAnalysis::Heap(_) => Kind::Heap,
            AnyAnalysis::Taint(_) => Kind::Taint,
            AnyAnalysis::Calls(_) => Kind::Calls,
            AnyAnalysis::Cover(_) => Kind::Cover,
            AnyAnalysis::Locks(_) => Kind::Locks,
        }
    }
}

impl Analysis for AnyAnalysis {
    fn first(&self) -> Option<u32> {
        match self {
            AnyAnalysis::Heap(redzones) => redzones.first(),
            AnyAnalysis::Taint(taint) => taint.first(),
            AnyAnalysis::Calls(calls) => calls.first(),
            AnyAnalysis::Cover(coverage) => coverage.first(),
            AnyAnalysis::Locks(locks) => locks.first(),
        }
    }

    fn count(&self) -> u64 {
        match self {
            AnyAnalysis::Heap(redzones) => redzones.count(),
            AnyAnalysis::Taint(taint) => taint.count(),
            AnyAnalysis::Calls(calls) => calls.count(),
            AnyAnalysis::Cover(coverage) => coverage.count(),
            AnyAnalysis::Locks(locks) => locks.count(),
        }
    }

    fn kept(&self) -> &[Finding] {
        match self {
            AnyAnalysis::Heap(redzones) => redzones.kept(),
            AnyAnalysis::Taint(taint) => taint.kept(),
            AnyAnalysis::Calls(calls) => calls.kept(),
            AnyAnalysis::Cover(coverage) => coverage.kept(),
            AnyAnalysis::Locks(locks) => locks.kept(),
        }
    }
}

impl Watcher for AnyAnalysis {
    ghost has_seen = { HasSeen };

    ghost ram_kib = { kib_of };

    ghost make = { made_of };

    fn see(&mut self, event: &Event) {
        match self {
            AnyAnalysis::Heap(redzones) => redzones.see(event),
            AnyAnalysis::Taint(taint) => taint.see(event),
            AnyAnalysis::Calls(calls) => calls.see(event),
            AnyAnalysis::Cover(coverage) => coverage.see(event),
            AnyAnalysis::Locks(locks) => locks.see(event),
        }
    }
}
