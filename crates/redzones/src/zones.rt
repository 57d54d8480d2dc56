//! The uses of bytes, as a shadow of RAM.
ghost use Rattle.memory_map.specs.declared.TheConstants.{LEAST_RAM_KIB, MOST_RAM_KIB};
ghost use Rattle.std.specs.Prelude.{◌≡◌, ℕ, ◌*◌, not, ◌≤◌, true, List, [], ◌∷◌, ◌++◌, length, None, IfOk};
ghost use Rattle.std.specs.Option.{option_map, option_or};
ghost use Rattle.list_laws.specs.Least.{least_from};
ghost use Rattle.run_events.specs.declared.event.Event.{Event};
ghost use Rattle.run_events.specs.declared.finding.Kind.TheVariants as kind;
ghost use Rattle.run_events.specs.Event.{AccessFits, Fits};
ghost use Rattle.analysis_model.specs.Complaints.{findings};
ghost use Rattle.analysis_model.specs.Findings.{first_step, tally, kept};
ghost use Rattle.analysis_model.specs.Heap.{is_forbidden, is_live, bad_free, touch, free, touch_kind};
ghost use Rattle.analysis_model.specs.InRam.{least_in_ram};
ghost use Rattle.analysis_model.specs.Look.{finding_at};
ghost use Rattle.analysis_model.specs.Made.{make_of};
ghost use Rattle.redzones.specs.Zones.{Zones, Stands, make_now, guest_now, use_in, painted_by, after};

use elf_image::Image;
use finding_tally::Tally;
use memory_map::{NoMemory, SharedByThreads};
use run_events::{Access, Announcement, Event, Finding, FindingKind, Watcher, may_announce};
use shadow_state::Shadow;
use std::alloc::Global;
use std::marker::Model;

// The values of the shadow. A byte is one of a live block, of a redzone, of a freed block, or of none of these.
const LIVE: u8 = 0;

const RED: u8 = 1;

const FREED: u8 = 2;

const PLAIN: u8 = 4;

// What no access may touch, and what may not be freed.
const FORBIDDEN: u8 = RED | FREED;

const NOT_LIVE: u8 = RED | FREED | PLAIN;

// How many bytes on either side of a block are red.
const MARGIN: u64 = 16;

/// What each byte of RAM is used for by the guest's heap, and what the guest did to bytes that were not its own.
#[derive(Drop)]
pub struct Redzones {
    ram_kib: u32,
    shadow: Shadow,
    found: Tally,
}

impl SharedByThreads for Redzones {}

impl Model for Redzones {
    ghost use Rattle.std.specs.Prelude.{◌≡◌, ◌*◌, ◌≤◌, length};
    ghost use Rattle.redzones.specs.Zones.{Zones};

    ghost Value = { Zones };

    ghost view = { λ z. record { ram_kib = z.ram_kib; shade = z.shadow; found = z.found } };

    ghost invariant = { λ z. length z.shadow.bytes ≡ 1024 * z.ram_kib };
}

impl Watcher for Redzones {
    ghost has_seen = { Stands };

    ghost ram_kib = { λ z. z.ram_kib };

    ghost make = { make_now };

    #[inline(never)]
    fn see(&mut self, event: &Event) {
        self.take_in(event);
    }

    #[inline(always)]
    fn try_see(&mut self, event: &Event) -> bool {
        self.is_calm(event)
    }
}

impl Redzones {
    /// Nothing seen yet, of a guest with `ram_kib` KiB of RAM; its image does not matter. It is the only call that takes
    /// memory.
    #[tactic(auto, using(shadow_state::proofs::SizeLaws::length_painted))]
    pub fn new(alloc: Global, image: &Image, ram_kib: u32) -> Result<Redzones, NoMemory>
        requires least { LEAST_RAM_KIB ≤ ram_kib }
        requires most { ram_kib ≤ MOST_RAM_KIB }
        ensures seen { IfOk result (λ z. Stands z []) }
        ensures size { IfOk result (λ z. z.ram_kib ≡ ram_kib) }
        ensures made { IfOk result (λ z. make_now z ≡ make_of kind.Heap image.now) }
    {
        let _image = image;
        let mut shadow = Shadow::new(alloc, ram_kib)?;
        shadow.paint(0, u64::MAX, PLAIN);
        Ok(Redzones {
            ram_kib,
            shadow,
            found: Tally::new(),
        })
    }

    /// The step of the first finding.
    pub fn first(&self) -> Option<u32>
        ensures now { result ≡ self.now.found.first }
        ensures seen { (h : List Event) → Stands self.now h →
            result ≡ first_step (findings kind.Heap (guest_now self.now) h) }
    {
        self.found.first()
    }

    /// How many findings there are, at most 2^64 - 1.
    pub fn count(&self) -> u64
        ensures now { result ≡ self.now.found.count }
        ensures seen { (h : List Event) → Stands self.now h →
            result ≡ tally (findings kind.Heap (guest_now self.now) h) }
    {
        self.found.count()
    }

    /// The first findings, at most 64, in order.
    pub fn kept(&self) -> &[Finding]
        ensures now { result.now ≡ self.now.found.kept }
        ensures seen { (h : List Event) → Stands self.now h →
            result.now ≡ kept (findings kind.Heap (guest_now self.now) h) }
    {
        self.found.kept()
    }

    // Takes in an event. At nearly each there is nothing to do, as one look tells.
    #[inline(always)]
    fn take_in(&mut self, event: &Event)
        requires { Fits self.old.ram_kib event.now }
        ensures { self.new ≡ after self.old event.now }
    {
        if !self.is_calm(event) {
            self.take_in_whole(event);
        }
    }

    // Whether the event announces nothing and touches no forbidden byte, as nearly each does.
    #[inline(always)]
    fn is_calm(&self, event: &Event) -> bool
        requires { Fits self.now.ram_kib event.now }
        ensures { result ≡ true → after self.now event.now ≡ self.now }
    {
        match event {
            Event::Exec { word, access, .. } => !may_announce(*word) && self.allows(access),
            Event::Dma { .. } | Event::Irq { .. } | Event::Trap { .. } => true,
        }
    }

    // Takes in an event, whatever it is.
    #[cold]
    fn take_in_whole(&mut self, event: &Event)
        requires { Fits self.old.ram_kib event.now }
        ensures { self.new ≡ after self.old event.now }
    {
        let Event::Exec {
            step,
            pc,
            word,
            access,
            told,
            ..
        } = *event
        else {
            return;
        };
        let announced = Announcement::of(word, told);
        let finding = self.look(step, pc, announced, access);
        self.paint(announced);
        self.found.note(finding);
    }

    // Whether the access touches no forbidden byte: the quick test that most accesses pass. Those to devices do not.
    #[inline(always)]
    fn allows(&self, access: &Access) -> bool
        requires { AccessFits self.now.ram_kib access.now }
        ensures { result ≡ true → touch (use_in self.now.shade) access.now ≡ None }
    {
        match *access {
            Access::Quiet => true,
            Access::Load { address, .. }
            | Access::Store { address, .. }
            | Access::Swap { address, .. } => self.is_clear(address),
        }
    }

    // Whether no access of at most four bytes from an address on touches a forbidden one.
    #[inline(always)]
    fn is_clear(&self, address: u32) -> bool
        ensures { result ≡ true → (width : ℕ) → width ≤ 4 →
            least_from (λ a. is_forbidden (use_in self.now.shade a)) address width ≡ None }
    {
        self.shadow.has_four_clear(address, FORBIDDEN)
    }

    // What there is to find at an instruction with this announcement and this access.
    fn look(
        &self,
        step: u32,
        pc: u32,
        announced: Option<Announcement>,
        access: Access,
    ) -> Option<Finding>
        ensures { result ≡ option_map (finding_at step pc)
            (option_or (free self.now.ram_kib (use_in self.now.shade) announced)
            (touch (use_in self.now.shade) access)) }
    {
        match self.first_bad_free(announced) {
            Some(address) => Some(Finding {
                step,
                pc,
                kind: FindingKind::BadFree,
                address,
            }),
            None => self.first_bad_touch(step, pc, access),
        }
    }

    // The least byte of RAM that is not live in a block that the guest frees.
    fn first_bad_free(&self, announced: Option<Announcement>) -> Option<u32>
        ensures { option_map bad_free result
            ≡ free self.now.ram_kib (use_in self.now.shade) announced }
    {
        match announced {
            Some(Announcement::Free { address, size }) => {
                let start = u64::from(address);
                self.first_not_live(start, start + u64::from(size))
            }
            _ => None,
        }
    }

    // The least byte of RAM in `[from, to)` that is not live.
    fn first_not_live(&self, from: u64, to: u64) -> Option<u32>
        ensures { result
            ≡ least_in_ram self.now.ram_kib (λ a. not (is_live (use_in self.now.shade a))) from to }
    {
        self.shadow.first_of(from, to, NOT_LIVE)
    }

    // The finding of an access that touches a forbidden byte.
    fn first_bad_touch(&self, step: u32, pc: u32, access: Access) -> Option<Finding>
        ensures { result ≡ option_map (finding_at step pc) (touch (use_in self.now.shade) access) }
    {
        if access.is_of_device() {
            return None;
        }
        match self.first_forbidden(access.touched_from(), access.touched_len()) {
            Some(address) => Some(Finding {
                step,
                pc,
                kind: self.touch_kind(address),
                address,
            }),
            None => None,
        }
    }

    // The least of `len` bytes from an address on that no access may touch.
    fn first_forbidden(&self, from: u32, len: u32) -> Option<u32>
        ensures { result ≡ least_from (λ a. is_forbidden (use_in self.now.shade a)) from len }
    {
        let start = u64::from(from);
        self.shadow
            .first_of(start, start + u64::from(len), FORBIDDEN)
    }

    // What is found at a forbidden byte: `Freed` at one of a freed block, else `Red`.
    fn touch_kind(&self, address: u32) -> FindingKind
        ensures { result ≡ touch_kind (use_in self.now.shade address) }
    {
        let value = self.shadow.get(address);
        if value % 4 != 0 && value % 2 == 0 {
            FindingKind::Freed
        } else {
            FindingKind::Red
        }
    }

    // Gives the bytes of an announced block their uses.
    #[tactic(auto, using(shadow_state::proofs::SizeLaws::length_painted))]
    fn paint(&mut self, announced: Option<Announcement>)
        ensures { self.new ≡ record self.old { shade = painted_by self.old.shade announced } }
    {
        match announced {
            Some(Announcement::Allocate { address, size }) => {
                let start = u64::from(address);
                let end = start + u64::from(size);
                self.shadow
                    .paint(start.saturating_sub(MARGIN), end + MARGIN, RED);
                self.shadow.paint(start, end, LIVE);
            }
            Some(Announcement::Free { address, size }) => {
                let start = u64::from(address);
                self.shadow.paint(start, start + u64::from(size), FREED);
            }
            _ => {}
        }
    }
}
