//! Coverage: marks a word of RAM, and findings.
ghost use Rattle.memory_map.specs.declared.TheConstants.{LEAST_RAM_KIB, MOST_RAM_KIB, RAM_START};
ghost use Rattle.std.specs.Prelude.{◌≡◌, ℕ, true, ◌-◌, ◌/◌, ◌*◌, ◌<◌, ◌≤◌, List, [], ◌∷◌, ◌++◌, length, slice_get, IfOk};
ghost use Rattle.run_events.specs.declared.event.Event.{Event};
ghost use Rattle.run_events.specs.declared.finding.Kind.TheVariants as kind;
ghost use Rattle.run_events.specs.Event.{Fits, IsWordInRam};
ghost use Rattle.analysis_model.specs.Complaints.{findings};
ghost use Rattle.analysis_model.specs.Cover.{executed_pcs, executed_ranges, is_within};
ghost use Rattle.analysis_model.specs.Findings.{first_step, tally, kept};
ghost use Rattle.analysis_model.specs.Made.{make_of, ranges_made_of};
ghost use Rattle.coverage_map.specs.Coverage.{Covered, AreKnown, Stands, area_numbers, make_now, guest_now, pcs_now, ranges_now, with_mark, with_outside, after};
ghost use Rattle.coverage_map.specs.Executed.{AreExecuted};

use crate::area::{Area, code_of, is_code};
use crate::ranges::{count_marks, count_ranges, find_range};
use elf_image::Image;
use finding_tally::Tally;
use memory_map::{NoMemory, RAM_START, SharedByThreads};
use run_events::{Event, Finding, FindingKind, Watcher};
use std::alloc::Global;
use std::marker::Model;

/// Which words of RAM were executed, and what was executed, or raised an exception, outside the guest's code.
#[derive(Drop)]
pub struct Coverage {
    ram_kib: u32,
    code: Vec<Area>,
    // the executed words, a mark for each word of RAM
    marks: Vec<bool>,
    // those of them that are code, at which there is nothing more to do
    known: Vec<bool>,
    found: Tally,
}

impl SharedByThreads for Coverage {}

// The place of the mark of the word at this address.
#[inline(always)]
fn place_of(pc: u32) -> usize
    requires { RAM_START ≤ pc }
    ensures { result ≡ (pc - RAM_START) / 4 }
{
    (pc - RAM_START) as usize / 4
}

impl Model for Coverage {
    ghost Value = { Covered };

    ghost view = { λ c. record {
      ram_kib = c.ram_kib;
      code = c.code.items;
      marks = c.marks.items;
      found = c.found;
    } };

    ghost invariant = { λ c. (c.ram_kib ≤ MOST_RAM_KIB)
        × (length c.marks.items ≡ 256 * c.ram_kib)
        × (length c.known.items ≡ 256 * c.ram_kib)
        × AreKnown c.known.items c.marks.items c.code.items };
}

impl Watcher for Coverage {
    ghost has_seen = { Stands };

    ghost ram_kib = { λ c. c.ram_kib };

    ghost make = { make_now };

    #[inline(never)]
    fn see(&mut self, event: &Event) {
        self.take_in(event);
    }

    #[inline(always)]
    fn try_see(&mut self, event: &Event) -> bool {
        self.take_in(event);
        true
    }
}

impl Coverage {
    /// Nothing seen yet, of a guest with this image and `ram_kib` KiB of RAM. It is the only call that takes memory.
    pub fn new(alloc: Global, image: &Image, ram_kib: u32) -> Result<Coverage, NoMemory>
        requires least { LEAST_RAM_KIB ≤ ram_kib }
        requires most { ram_kib ≤ MOST_RAM_KIB }
        ensures seen { IfOk result (λ c. Stands c []) }
        ensures size { IfOk result (λ c. c.ram_kib ≡ ram_kib) }
        ensures made { IfOk result (λ c. make_now c ≡ make_of kind.Cover image.now) }
    {
        let code = code_of(alloc, &image.segments)?;
        let marks = vec![in alloc; false; 256 * ram_kib as usize]?;
        let known = vec![in alloc; false; 256 * ram_kib as usize]?;
        Ok(Coverage {
            ram_kib,
            code,
            marks,
            known,
            found: Tally::new(),
        })
    }

    /// The step of the first finding.
    pub fn first(&self) -> Option<u32>
        ensures now { result ≡ self.now.found.first }
        ensures seen { (h : List Event) → Stands self.now h →
            result ≡ first_step (findings kind.Cover (guest_now self.now) h) }
    {
        self.found.first()
    }

    /// How many findings there are, at most 2^64 - 1.
    pub fn count(&self) -> u64
        ensures now { result ≡ self.now.found.count }
        ensures seen { (h : List Event) → Stands self.now h →
            result ≡ tally (findings kind.Cover (guest_now self.now) h) }
    {
        self.found.count()
    }

    /// The first findings, at most 64, in order.
    pub fn kept(&self) -> &[Finding]
        ensures now { result.now ≡ self.now.found.kept }
        ensures seen { (h : List Event) → Stands self.now h →
            result.now ≡ kept (findings kind.Cover (guest_now self.now) h) }
    {
        self.found.kept()
    }

    /// How many pc values were executed.
    pub fn pcs(&self) -> u64
        ensures now { result ≡ length (pcs_now self.now) }
        ensures seen { (h : List Event) → Stands self.now h → result ≡ length (executed_pcs h) }
    {
        count_marks(&self.marks)
    }

    /// How many ranges of addresses the executed words make up.
    pub fn ranges(&self) -> u64
        ensures now { result ≡ length (ranges_now self.now) }
        ensures seen { (h : List Event) → Stands self.now h → result ≡ length (executed_ranges h) }
        // what a reader knows of them: they ascend, lie apart, and have exactly the executed bytes
        ensures executed { (h : List Event) → Stands self.now h
            → AreExecuted (ranges_now self.now) h }
    {
        count_ranges(&self.marks)
    }

    /// The range with this index, in ascending order: its first address, and the one after its last.
    pub fn range(&self, index: u64) -> (u32, u32)
        requires { index < length (ranges_now self.now) }
        ensures now { slice_get (ranges_now self.now) index
            ≡ Some (record { from = result.0; to = result.1 }) }
        ensures seen { (h : List Event)
            → Stands self.now h
            → slice_get (executed_ranges h) index
            ≡ Some (record { from = result.0; to = result.1 }) }
    {
        find_range(&self.marks, index)
    }

    // Takes in an event. At nearly each there is nothing to do, as one look tells.
    #[inline(always)]
    fn take_in(&mut self, event: &Event)
        requires { Fits self.old.ram_kib event.now }
        ensures { self.new ≡ after self.old event.now }
    {
        match event {
            Event::Exec { step, pc, .. } => {
                if !self.is_known(*pc) {
                    self.execute(*step, *pc);
                }
            }
            Event::Trap { step, pc, .. } => self.look_at(*step, *pc),
            Event::Dma { .. } | Event::Irq { .. } => {}
        }
    }

    // Whether the word at this pc was executed before, and is code.
    #[tactic(auto, using(crate::proofs::KnownLaws::known_marks))]
    #[inline(always)]
    fn is_known(&self, pc: u32) -> bool
        requires { IsWordInRam self.now.ram_kib pc }
        ensures marked { result ≡ true → with_mark self.now pc ≡ self.now }
        ensures code { result ≡ true →
            is_within (ranges_made_of (area_numbers self.now.code)) pc ≡ true }
    {
        self.known[place_of(pc)]
    }

    // Takes in that the word at this pc was executed.
    #[inline(never)]
    fn execute(&mut self, step: u32, pc: u32)
        requires { IsWordInRam self.old.ram_kib pc }
        ensures { self.new ≡ with_outside (with_mark self.old pc) step pc }
    {
        self.mark(pc);
        self.look_at(step, pc);
    }

    // Marks the word at this pc.
    fn mark(&mut self, pc: u32)
        requires { IsWordInRam self.old.ram_kib pc }
        ensures { self.new ≡ with_mark self.old pc }
    {
        let place = place_of(pc);
        self.marks[place] = true;
        if is_code(&self.code, pc) {
            self.known[place] = true;
        }
    }

    // Adds a finding where this pc is not in the guest's code.
    #[inline(never)]
    fn look_at(&mut self, step: u32, pc: u32)
        ensures { self.new ≡ with_outside self.old step pc }
    {
        if !is_code(&self.code, pc) {
            self.found.add(Finding {
                step,
                pc,
                kind: FindingKind::Outside,
                address: pc,
            });
        }
    }
}
