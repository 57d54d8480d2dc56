//! The analysis of locks.
ghost use Rattle.memory_map.specs.declared.TheConstants.{LEAST_RAM_KIB, MOST_RAM_KIB};
ghost use Rattle.std.specs.Prelude.{◌≡◌, ℕ, ◌*◌, ◌<◌, ◌≤◌, true, List, [], ◌∷◌, ◌++◌, length, Option, None, Some, IfOk};
ghost use Rattle.std.specs.Option.{option_map};
ghost use Rattle.run_events.specs.declared.announcement.Announcement.TheVariants as announce;
ghost use Rattle.run_events.specs.declared.event.Event.{Event};
ghost use Rattle.run_events.specs.declared.finding.Kind.TheVariants as kind;
ghost use Rattle.list_laws.specs.Least.{least_from};
ghost use Rattle.memory_map.specs.Ram.{InRam};
ghost use Rattle.run_events.specs.Event.{AccessFits, Fits};
ghost use Rattle.lock_rules.specs.Entries.{is_open};
ghost use Rattle.analysis_model.specs.Complaints.{findings};
ghost use Rattle.analysis_model.specs.Findings.{first_step, tally, kept};
ghost use Rattle.analysis_model.specs.Locks.{locks_kept};
ghost use Rattle.analysis_model.specs.Made.{make_of};
ghost use Rattle.analysis_model.specs.Look.{finding_at};
ghost use Rattle.lock_rules.specs.State.{Stands, make_now, guest_now, known_with, guards_with, told_state, heard, opened, after};

use crate::guard::{Guard, least_open};
use crate::lock::{Lock, holder_of, is_held_by, is_known, place_of, set_holder};
use elf_image::Image;
use finding_tally::Tally;
use memory_map::{NoMemory, SharedByThreads};
use run_events::{
    Access, Announcement, CONTEXTS, Event, Finding, FindingKind, Watcher, may_announce,
};
use shadow_state::Shadow;
use std::alloc::Global;
use std::marker::Model;

/// Who holds which lock, and whether the bytes that locks guard are touched without them.
#[derive(Drop)]
pub struct Locks {
    ram_kib: u32,
    context: u32,
    locks: Vec<Lock>,
    guards: Vec<Guard>,
    // each byte of RAM that a range guards has the value GUARDED
    guarded: Shadow,
    found: Tally,
}

impl SharedByThreads for Locks {}

// How many locks count, and how many guarded ranges.
const KEPT: usize = 256;

// The value of the shadow at a guarded byte; it is 0 elsewhere.
const GUARDED: u8 = 1;

impl Model for Locks {
    ghost use Rattle.std.specs.Prelude.{◌≡◌, ◌*◌, length};
    ghost use Rattle.std.specs.Vec.{vec_capacity};
    ghost use Rattle.analysis_model.specs.Look.{finding_at};
    ghost use Rattle.lock_rules.specs.Shaded.{AreShaded};
    ghost use Rattle.lock_rules.specs.State.{LockState};

    ghost Value = { LockState };

    ghost view = { λ l. record {
      ram_kib = l.ram_kib;
      context = l.context;
      locks = l.locks.items;
      guards = l.guards.items;
      found = l.found;
    } };

    ghost invariant = { λ l. (vec_capacity l.locks ≡ 256) × (vec_capacity l.guards ≡ 256)
        × (length l.guarded.bytes ≡ 1024 * l.ram_kib) × AreShaded l.guarded l.guards.items };
}

impl Watcher for Locks {
    ghost has_seen = { Stands };

    ghost ram_kib = { λ l. l.ram_kib };

    ghost make = { make_now };

    #[inline(never)]
    fn see(&mut self, event: &Event) {
        self.take_in(event);
    }

    #[inline(always)]
    fn try_see(&mut self, event: &Event) -> bool {
        self.is_calm(event)
    }
}

impl Locks {
    /// Nothing seen yet, of a guest with `ram_kib` KiB of RAM; its image tells nothing of locks. It is the only call that
    /// takes memory.
    pub fn new(alloc: Global, image: &Image, ram_kib: u32) -> Result<Locks, NoMemory>
        requires least { LEAST_RAM_KIB ≤ ram_kib }
        requires most { ram_kib ≤ MOST_RAM_KIB }
        ensures seen { IfOk result (λ l. Stands l []) }
        ensures size { IfOk result (λ l. l.ram_kib ≡ ram_kib) }
        ensures made { IfOk result (λ l. make_now l ≡ make_of kind.Locks image.now) }
    {
        let _image = image;
        Ok(Locks {
            ram_kib,
            context: 0,
            locks: Vec::with_capacity(alloc, KEPT)?,
            guards: Vec::with_capacity(alloc, KEPT)?,
            guarded: Shadow::new(alloc, ram_kib)?,
            found: Tally::new(),
        })
    }

    /// The step of the first finding.
    pub fn first(&self) -> Option<u32>
        ensures now { result ≡ self.now.found.first }
        ensures seen { (h : List Event) → Stands self.now h →
            result ≡ first_step (findings kind.Locks (guest_now self.now) h) }
    {
        self.found.first()
    }

    /// How many findings there are, at most 2^64 - 1.
    pub fn count(&self) -> u64
        ensures now { result ≡ self.now.found.count }
        ensures seen { (h : List Event) → Stands self.now h →
            result ≡ tally (findings kind.Locks (guest_now self.now) h) }
    {
        self.found.count()
    }

    /// The first findings, at most 64, in order.
    pub fn kept(&self) -> &[Finding]
        ensures now { result.now ≡ self.now.found.kept }
        ensures seen { (h : List Event) → Stands self.now h →
            result.now ≡ kept (findings kind.Locks (guest_now self.now) h) }
    {
        self.found.kept()
    }

    // Takes in an event. At nearly each there is nothing to do, as one look tells.
    #[inline(always)]
    fn take_in(&mut self, event: &Event)
        requires { Fits self.old.ram_kib event.now }
        ensures { self.new ≡ after self.old event.now }
    {
        if !self.is_calm(event) {
            self.take_in_whole(event);
        }
    }

    // Whether the event announces nothing and touches nothing that could be guarded, as nearly each does.
    #[inline(always)]
    fn is_calm(&self, event: &Event) -> bool
        requires { Fits self.now.ram_kib event.now }
        ensures { result ≡ true → after self.now event.now ≡ self.now }
    {
        match event {
            Event::Exec { word, access, .. } => !may_announce(*word) && self.allows(access),
            Event::Dma { .. } | Event::Irq { .. } | Event::Trap { .. } => true,
        }
    }

    // Whether the access touches no guarded byte: the quick test that most accesses pass. Those to devices do not.
    #[tactic(auto, using(crate::proofs::OpenLaws::none_touched))]
    #[inline(always)]
    fn allows(&self, access: &Access) -> bool
        requires { AccessFits self.now.ram_kib access.now }
        ensures { result ≡ true → opened self.now access.now ≡ None }
    {
        match *access {
            Access::Quiet => true,
            Access::Load {
                address,
                device,
                ..
            }
            | Access::Store {
                address,
                device,
                ..
            } => !device && self.is_unguarded(address),
            Access::Swap { address, .. } => self.is_unguarded(address),
        }
    }

    // Whether no access to RAM of at most four bytes from an address on touches a guarded one.
    #[inline(always)]
    fn is_unguarded(&self, address: u32) -> bool
        ensures { result ≡ true → (width : ℕ) → width ≤ 4
            → InRam (1024 * self.now.ram_kib) address width
            → least_from (is_open self.now.locks self.now.context self.now.guards) address width
            ≡ None }
    {
        self.guarded.has_four_clear(address, GUARDED)
    }

    // Takes in an event, whatever it is.
    #[inline(never)]
    fn take_in_whole(&mut self, event: &Event)
        ensures { self.new ≡ after self.old event.now }
    {
        if let Event::Exec {
            step,
            pc,
            word,
            access,
            told,
            ..
        } = *event
        {
            let open = self.look(step, pc, access);
            let finding = self.hear(step, pc, Announcement::of(word, told)).or(open);
            self.found.note(finding);
        }
    }

    // The finding of an access: the least byte that a range guards by a lock that the context does not hold.
    fn look(&self, step: u32, pc: u32, access: Access) -> Option<Finding>
        ensures { result ≡ option_map (finding_at step pc) (opened self.now access) }
    {
        let (from, size) = (access.touched_from(), access.touched_len());
        match least_open(&self.locks, &self.guards, self.context, from, size) {
            None => None,
            Some(address) => Some(Finding {
                step,
                pc,
                kind: FindingKind::Unguarded,
                address,
            }),
        }
    }

    // Takes in an announcement, and answers its finding.
    fn hear(&mut self, step: u32, pc: u32, told: Option<Announcement>) -> Option<Finding>
        ensures finding { result ≡ option_map (finding_at step pc) (heard self.old told) }
        ensures state { self.new ≡ told_state self.old told }
    {
        match told {
            Some(Announcement::Acquire { lock }) => self.acquire(step, pc, lock),
            Some(Announcement::Release { lock }) => self.release(step, pc, lock),
            Some(
                Announcement::Guard {
                    address,
                    size,
                    lock,
                },
            ) => {
                self.guard(address, size, lock);
                None
            }
            Some(Announcement::Enter { context }) => {
                self.enter(context);
                None
            }
            Some(Announcement::Allocate { .. })
            | Some(Announcement::Free { .. })
            | Some(Announcement::Check { .. })
            | None => None,
        }
    }

    // The context acquires a lock. Where the lock counts, it is a finding if it is held.
    fn acquire(&mut self, step: u32, pc: u32, lock: u32) -> Option<Finding>
        ensures finding { result
            ≡ option_map (finding_at step pc) (heard self.old (Some (announce.Acquire lock))) }
        ensures state { self.new ≡ told_state self.old (Some (announce.Acquire lock)) }
    {
        self.note_lock(lock);
        let is_bad = is_known(&self.locks, lock) && holder_of(&self.locks, lock).is_some();
        set_holder(&mut self.locks, lock, Some(self.context));
        if is_bad {
            Some(Finding {
                step,
                pc,
                kind: FindingKind::Reacquire,
                address: lock,
            })
        } else {
            None
        }
    }

    // The context releases a lock. Where the lock counts, it is a finding if the context does not hold it.
    fn release(&mut self, step: u32, pc: u32, lock: u32) -> Option<Finding>
        ensures finding { result
            ≡ option_map (finding_at step pc) (heard self.old (Some (announce.Release lock))) }
        ensures state { self.new ≡ told_state self.old (Some (announce.Release lock)) }
    {
        self.note_lock(lock);
        let holder = holder_of(&self.locks, lock);
        let is_bad = is_known(&self.locks, lock) && !is_held_by(holder, self.context);
        set_holder(&mut self.locks, lock, None);
        if is_bad {
            Some(Finding {
                step,
                pc,
                kind: FindingKind::BadRelease,
                address: lock,
            })
        } else {
            None
        }
    }

    // A lock guards `size` bytes from `start` on, where it counts.
    fn guard(&mut self, start: u32, size: u32, lock: u32)
        ensures { self.new ≡ told_state self.old (Some (announce.Guard start size lock)) }
    {
        self.note_lock(lock);
        if let Some(place) = place_of(&self.locks, lock) {
            self.add_guard(start, size, place);
        }
    }

    // Adds a guarded range, where there is room.
    #[tactic(auto, unfolding(analysis_model::specs::Locks::locks_kept))]
    fn add_guard(&mut self, start: u32, size: u32, place: usize)
        ensures { self.new
            ≡ record self.old { guards = guards_with self.old.guards start size (Some place) } }
    {
        if self.guards.len() < KEPT {
            let from = u64::from(start);
            let to = from + u64::from(size);
            self.guarded.paint(from, to, GUARDED);
            self.guards.push_reserved(Guard {
                from: start,
                to,
                place,
            });
        }
    }

    // Lets the lock count, where it is new and there is room.
    #[tactic(auto, unfolding(analysis_model::specs::Locks::locks_kept))]
    fn note_lock(&mut self, number: u32)
        ensures { self.new ≡ record self.old { locks = known_with self.old.locks (Some number) } }
    {
        if !is_known(&self.locks, number) && self.locks.len() < KEPT {
            self.locks.push_reserved(Lock {
                number,
                holder: None,
            });
        }
    }

    // The guest goes on in this context, where there is such a one.
    fn enter(&mut self, context: u32)
        ensures { self.new ≡ told_state self.old (Some (announce.Enter context)) }
    {
        if context < CONTEXTS {
            self.context = context;
        }
    }
}
