//! The analysis of calls and returns.
ghost use Rattle.memory_map.specs.declared.TheConstants.{LEAST_RAM_KIB, MOST_RAM_KIB};
ghost use Rattle.std.specs.Prelude.{◌≡◌, ℕ, ◌+◌, ◌*◌, ◌^◌, ◌<◌, ◌≤◌, IsTrue, false, List, [], ◌∷◌, ◌++◌, length, Option, IfOk};
ghost use Rattle.run_events.specs.declared.access.Told.{Told as Arguments};
ghost use Rattle.run_events.specs.declared.event.Event.{Event};
ghost use Rattle.run_events.specs.declared.finding.Kind.TheVariants as kind;
ghost use Rattle.run_events.specs.Announcement.{announced_by};
ghost use Rattle.run_events.specs.Event.{Fits, IsWordInRam};
ghost use Rattle.rv_decode.specs.Listing.{instruction};
ghost use Rattle.analysis_model.specs.Calls.{link_as};
ghost use Rattle.analysis_model.specs.Complaints.{findings};
ghost use Rattle.analysis_model.specs.Context.{entered};
ghost use Rattle.analysis_model.specs.Findings.{first_step, tally, kept};
ghost use Rattle.analysis_model.specs.Made.{make_of};
ghost use Rattle.call_stacks.specs.Stacks.{Stacks, Stands, make_now, guest_now, unmatched_in, pushed, popped, front_of, judged, misled, returned, moved, in_context, after};

use crate::moves::{link_of_word, may_link};
use crate::rings::{Frames, empty_rings};
use elf_image::Image;
use finding_tally::Tally;
use memory_map::{NoMemory, SharedByThreads};
use run_events::{
    Announcement, CONTEXTS, Event, Finding, FindingKind, Told, Watcher, may_announce,
};
use rv_decode::Link;
use std::alloc::Global;
use std::marker::Model;

/// Whether the guest's returns go back to where its calls came from, a stack of return addresses a context.
#[derive(Drop)]
pub struct Calls {
    ram_kib: u32,
    // the context that the guest runs in
    context: usize,
    // the return addresses of each context
    rings: Vec<Frames>,
    unmatched: u64,
    found: Tally,
}

impl SharedByThreads for Calls {}

impl Model for Calls {
    ghost Value = { Stacks };

    ghost view = { λ c. record {
      ram_kib = c.ram_kib;
      context = c.context;
      rings = c.rings.items;
      unmatched = c.unmatched;
      found = c.found;
    } };

    ghost invariant = { λ c. (c.ram_kib ≤ MOST_RAM_KIB)
        × (c.context < 64)
        × (length c.rings.items ≡ 64) };
}

impl Watcher for Calls {
    ghost has_seen = { Stands };

    ghost ram_kib = { λ c. c.ram_kib };

    ghost make = { make_now };

    #[inline(never)]
    fn see(&mut self, event: &Event) {
        self.take_in(event);
    }

    #[inline(always)]
    fn try_see(&mut self, event: &Event) -> bool {
        self.take_in(event);
        true
    }
}

impl Calls {
    /// Nothing seen yet, of a guest with `ram_kib` KiB of RAM; its image tells nothing of calls. It is the only call that
    /// takes memory.
    pub fn new(alloc: Global, image: &Image, ram_kib: u32) -> Result<Calls, NoMemory>
        requires least { LEAST_RAM_KIB ≤ ram_kib }
        requires most { ram_kib ≤ MOST_RAM_KIB }
        ensures seen { IfOk result (λ c. Stands c []) }
        ensures size { IfOk result (λ c. c.ram_kib ≡ ram_kib) }
        ensures made { IfOk result (λ c. make_now c ≡ make_of kind.Calls image.now) }
    {
        let _image = image;
        Ok(Calls {
            ram_kib,
            context: 0,
            rings: empty_rings(alloc)?,
            unmatched: 0,
            found: Tally::new(),
        })
    }

    /// The step of the first finding.
    pub fn first(&self) -> Option<u32>
        ensures now { result ≡ self.now.found.first }
        ensures seen { (h : List Event) → Stands self.now h →
            result ≡ first_step (findings kind.Calls (guest_now self.now) h) }
    {
        self.found.first()
    }

    /// How many findings there are, at most 2^64 - 1.
    pub fn count(&self) -> u64
        ensures now { result ≡ self.now.found.count }
        ensures seen { (h : List Event) → Stands self.now h →
            result ≡ tally (findings kind.Calls (guest_now self.now) h) }
    {
        self.found.count()
    }

    /// The first findings, at most 64, in order.
    pub fn kept(&self) -> &[Finding]
        ensures now { result.now ≡ self.now.found.kept }
        ensures seen { (h : List Event) → Stands self.now h →
            result.now ≡ kept (findings kind.Calls (guest_now self.now) h) }
    {
        self.found.kept()
    }

    /// How many returns answer no call, at most 2^64 - 1. They are no findings.
    pub fn unmatched(&self) -> u64
        ensures now { result ≡ self.now.unmatched }
        ensures seen { (h : List Event) → Stands self.now h → result ≡ unmatched_in h }
    {
        self.unmatched
    }

    // Takes in an event. Nearly each is an instruction that does nothing to the return addresses and announces nothing, as
    // two compares tell.
    #[inline(always)]
    fn take_in(&mut self, event: &Event)
        requires { Fits self.old.ram_kib event.now }
        ensures { self.new ≡ after self.old event.now }
    {
        if let Event::Exec {
            step,
            pc,
            word,
            next,
            told,
            ..
        } = event
        {
            if may_link(*word) {
                self.follow(*word, *step, *pc, *next);
            }
            if may_announce(*word) {
                self.enter_first(*word, told.a0);
            }
        }
    }

    // Does what the instruction `word` at `pc` does to the return addresses.
    #[inline(never)]
    fn follow(&mut self, word: u32, step: u32, pc: u32, next: u32)
        requires { IsWordInRam self.old.ram_kib pc }
        ensures { self.new ≡ moved self.old (link_as (instruction word)) step pc next }
    {
        match link_of_word(word) {
            Link::Plain => {}
            Link::Push => self.push(pc),
            Link::Pop => self.pop(step, pc, next),
            Link::PopPush => self.pop_push(step, pc, next),
        }
    }

    // A return that is a call as well. It is rare, and stands apart.
    #[cold]
    #[inline(never)]
    fn pop_push(&mut self, step: u32, pc: u32, next: u32)
        requires { IsWordInRam self.old.ram_kib pc }
        ensures { self.new ≡ pushed (returned self.old step pc next) (pc + 4) }
    {
        self.pop(step, pc, next);
        self.push(pc);
    }

    // Puts the return address of the call at `pc` on the stack: the instruction after it. Where the stack is full, the
    // oldest one is dropped.
    #[inline(always)]
    fn push(&mut self, pc: u32)
        requires { IsWordInRam self.old.ram_kib pc }
        ensures { self.new ≡ pushed self.old (pc + 4) }
    {
        let frames = &mut self.rings[self.context];
        let _dropped = frames.push_front(pc + 4);
    }

    // Takes the newest return address off the stack, and judges the return at `pc` by it.
    #[inline(always)]
    fn pop(&mut self, step: u32, pc: u32, next: u32)
        ensures { self.new ≡ returned self.old step pc next }
    {
        let answer = self.pop_frame();
        self.judge(answer, step, pc, next);
    }

    // Takes the newest return address off the stack, if there is one.
    fn pop_frame(&mut self) -> Option<u32>
        ensures answer { result ≡ front_of self.old }
        ensures rest { self.new ≡ popped self.old }
    {
        let frames = &mut self.rings[self.context];
        frames.pop_front()
    }

    // Judges the return at `pc` that went on at `next`, by where its call wanted it to go. Where there was no call it is
    // unmatched.
    #[inline(always)]
    fn judge(&mut self, answer: Option<u32>, step: u32, pc: u32, next: u32)
        ensures { self.new ≡ judged self.old answer step pc next }
    {
        match answer {
            None => self.unmatched = self.unmatched.saturating_add(1),
            Some(wanted) => {
                if wanted != next {
                    self.complain(step, pc, wanted);
                }
            }
        }
    }

    // The return at `pc` went elsewhere than to where its call wanted. It stands apart, so that the returns that go where
    // they should are not slowed down by it.
    #[cold]
    #[inline(never)]
    fn complain(&mut self, step: u32, pc: u32, wanted: u32)
        ensures { self.new ≡ misled self.old step pc wanted }
    {
        self.found.add(Finding {
            step,
            pc,
            kind: FindingKind::Return,
            address: wanted,
        });
    }

    // Changes the context where the word announces one. Of the three arguments the first one alone matters.
    #[tactic(auto, using(crate::proofs::EnterLaws::entered_by_first))]
    #[inline(never)]
    fn enter_first(&mut self, word: u32, first: u32)
        ensures { (told : Arguments) → told.a0 ≡ first →
            self.new ≡ in_context self.old (entered (announced_by word told)) }
    {
        let told = Told {
            a0: first,
            a1: 0,
            a2: 0,
        };
        self.enter(word, told);
    }

    // Changes the context where the word announces one.
    fn enter(&mut self, word: u32, told: Told)
        ensures { self.new ≡ in_context self.old (entered (announced_by word told)) }
    {
        if let Some(Announcement::Enter { context }) = Announcement::of(word, told) {
            if context < CONTEXTS {
                self.context = context as usize;
            }
        }
    }
}
