//! The marks of registers, of mscratch and of RAM.
ghost use Rattle.memory_map.specs.declared.TheConstants.{LEAST_RAM_KIB, MOST_RAM_KIB};
ghost use Rattle.std.specs.Prelude.{◌≡◌, ℕ, ◌+◌, ◌*◌, ◌≤◌, ◌<◌, true, List, [], ◌∷◌, ◌++◌, length, unwrap_or, IfOk, Option, None, Some};
ghost use Rattle.std.specs.Option.{option_map, option_or};
ghost use Rattle.run_events.specs.declared.event.Event.{Event};
ghost use Rattle.run_events.specs.declared.finding.Kind.TheVariants as kind;
ghost use Rattle.memory_map.specs.Ram.{InRam};
ghost use Rattle.run_events.specs.Event.{AccessFits, Fits};
ghost use Rattle.analysis_model.specs.Complaints.{findings};
ghost use Rattle.analysis_model.specs.Findings.{first_step, tally, kept};
ghost use Rattle.analysis_model.specs.InRam.{least_in_ram};
ghost use Rattle.analysis_model.specs.Look.{finding_at};
ghost use Rattle.analysis_model.specs.Made.{make_of};
ghost use Rattle.analysis_model.specs.Taint.{Register, Scratch, Byte, is_marked, is_marked_jump, bytes_from, loaded as sources_loaded, old_bytes, operands, mark_of, union_of, writes_as, writes_by, with_result as writes_with, no_writes, atomic_writes, csr_writes, scratch_writes, jump, leak, leaked};
ghost use Rattle.rv_decode.specs.Listing.{instruction};
ghost use Rattle.taint_marks.specs.Calm.{AreUnmarked, NoneMarked, IsUnmarked};
ghost use Rattle.taint_marks.specs.Held.{weight};
ghost use Rattle.taint_marks.specs.Marked.{marked_by, given_result, given_stored};
ghost use Rattle.taint_marks.specs.Marks.{Marks, Stands, make_now, guest_now, mark_now, with_given, after, registers_with, shade_with};

use elf_image::Image;
use finding_tally::Tally;
use memory_map::{NoMemory, SharedByThreads};
use run_events::{Access, Announcement, Event, Finding, FindingKind, Watcher, may_announce};
use rv_decode::{AtomicOp, CsrOp, Instr, RegOp, decode};
use shadow_state::Shadow;
use std::alloc::Global;
use std::marker::Model;

// mscratch's address, the one CSR that has a mark. (Privileged manual, 2.2.)
const MSCRATCH: u32 = 0x340;

// How many bytes of a range that must be unmarked are looked at, from its start on.
const MOST_CHECKED: u32 = 4096;

// The opcodes of most instructions. (Unprivileged manual, chapter 24.)
const LOAD: u32 = 0x03;

const STORE: u32 = 0x23;

const BRANCH: u32 = 0x63;

const OP_IMM: u32 = 0x13;

const OP: u32 = 0x33;

/// Which registers and bytes of RAM hold what came from marked input, and where a marked address was jumped to or a
/// marked byte was about to leave.
#[derive(Drop)]
pub struct Taint {
    ram_kib: u32,
    registers: [u8; 32],
    scratch: u8,
    // how many of the registers and mscratch have a mark, for the quick test
    held: u32,
    shadow: Shadow,
    found: Tally,
}

impl SharedByThreads for Taint {}

// How many marks are held once the old mark of a place has become the new one, where `held` were before. 0 is no mark.
#[inline(always)]
fn held_with(held: u32, old: u8, new: u8) -> u32
    requires least { weight old ≤ held }
    requires most { held ≤ 33 }
    ensures { result + weight old ≡ held + weight new }
{
    held - u32::from(old != 0) + u32::from(new != 0)
}

impl Model for Taint {
    ghost use Rattle.memory_map.specs.declared.TheConstants.{MOST_RAM_KIB};
    ghost use Rattle.std.specs.Prelude.{◌≡◌, ◌*◌, ◌≤◌, length};
    ghost use Rattle.taint_marks.specs.Held.{marks_held};
    ghost use Rattle.taint_marks.specs.Marks.{Marks};

    ghost Value = { Marks };

    ghost view = { λ t. record {
      ram_kib = t.ram_kib;
      registers = t.registers;
      scratch = t.scratch;
      shade = t.shadow;
      found = t.found;
    } };

    ghost invariant = { λ t. (t.ram_kib ≤ MOST_RAM_KIB) × (length t.shadow.bytes ≡ 1024 * t.ram_kib)
        × (t.held ≡ marks_held t.registers t.scratch) };
}

impl Watcher for Taint {
    ghost has_seen = { Stands };

    ghost ram_kib = { λ t. t.ram_kib };

    ghost make = { make_now };

    #[inline(never)]
    fn see(&mut self, event: &Event) {
        self.take_in(event);
    }

    #[inline(always)]
    fn try_see(&mut self, event: &Event) -> bool {
        self.is_calm(event)
    }
}

impl Taint {
    /// Nothing seen yet, of a guest with `ram_kib` KiB of RAM; its image does not matter. It is the only call that takes
    /// memory.
    pub fn new(alloc: Global, image: &Image, ram_kib: u32) -> Result<Taint, NoMemory>
        requires least { LEAST_RAM_KIB ≤ ram_kib }
        requires most { ram_kib ≤ MOST_RAM_KIB }
        ensures seen { IfOk result (λ t. Stands t []) }
        ensures size { IfOk result (λ t. t.ram_kib ≡ ram_kib) }
        ensures made { IfOk result (λ t. make_now t ≡ make_of kind.Taint image.now) }
    {
        let _image = image;
        let shadow = Shadow::new(alloc, ram_kib)?;
        Ok(Taint {
            ram_kib,
            registers: [0; 32],
            scratch: 0,
            held: 0,
            shadow,
            found: Tally::new(),
        })
    }

    /// The step of the first finding.
    pub fn first(&self) -> Option<u32>
        ensures now { result ≡ self.now.found.first }
        ensures seen { (h : List Event) → Stands self.now h →
            result ≡ first_step (findings kind.Taint (guest_now self.now) h) }
    {
        self.found.first()
    }

    /// How many findings there are, at most 2^64 - 1.
    pub fn count(&self) -> u64
        ensures now { result ≡ self.now.found.count }
        ensures seen { (h : List Event) → Stands self.now h →
            result ≡ tally (findings kind.Taint (guest_now self.now) h) }
    {
        self.found.count()
    }

    /// The first findings, at most 64, in order.
    pub fn kept(&self) -> &[Finding]
        ensures now { result.now ≡ self.now.found.kept }
        ensures seen { (h : List Event) → Stands self.now h →
            result.now ≡ kept (findings kind.Taint (guest_now self.now) h) }
    {
        self.found.kept()
    }

    // Whether the event announces nothing and there is no mark where it could read or write one, as with nearly each event
    // of a guest that handles little marked input.
    #[inline(always)]
    fn is_calm(&self, event: &Event) -> bool
        requires { Fits self.now.ram_kib event.now }
        ensures { result ≡ true → after self.now event.now ≡ self.now }
    {
        match event {
            Event::Exec { word, access, .. } => {
                !may_announce(*word) && self.names_no_mark(*word) && self.touches_no_mark(access)
            }
            Event::Dma { .. } => false,
            Event::Irq { .. } | Event::Trap { .. } => true,
        }
    }

    // Whether mscratch has no mark, nor has any register that a field of the word names, be it read, written or neither.
    // Mostly there is no mark at all.
    #[inline(always)]
    fn names_no_mark(&self, word: u32) -> bool
        ensures { result ≡ true → AreUnmarked self.now word }
    {
        self.holds_no_mark() || self.has_clear_fields(word)
    }

    // Whether no register has a mark, nor has mscratch.
    #[tactic(auto, using(crate::proofs::HeldLaws::none_held, crate::proofs::HeldLaws::none_held_aside))]
    #[inline(always)]
    fn holds_no_mark(&self) -> bool
        ensures registers { result ≡ true → (n : ℕ) → mark_now self.now (Register n) ≡ 0 }
        ensures scratch { result ≡ true → mark_now self.now Scratch ≡ 0 }
    {
        self.held == 0
    }

    // Whether mscratch has no mark, nor has any register that the places of rd, rs1 and rs2 name.
    #[tactic(auto, using(crate::proofs::CalmLaws::AreUnmarked_joined))]
    fn has_clear_fields(&self, word: u32) -> bool
        ensures { result ≡ true → AreUnmarked self.now word }
    {
        let rd = self.register(word >> 7 & 31);
        let rs1 = self.register(word >> 15 & 31);
        let rs2 = self.register(word >> 20 & 31);
        rd | rs1 | rs2 | self.scratch == 0
    }

    // Whether the access is to no device and touches no marked byte.
    #[inline(always)]
    fn touches_no_mark(&self, access: &Access) -> bool
        requires { AccessFits self.now.ram_kib access.now }
        ensures { result ≡ true → IsUnmarked self.now access.now }
    {
        match *access {
            Access::Quiet => true,
            _ => !access.is_of_device() && self.is_unmarked(access.touched_from()),
        }
    }

    // Whether none of at most four bytes from an address on has a mark.
    #[inline(always)]
    fn is_unmarked(&self, address: u32) -> bool
        ensures { result ≡ true → (width : ℕ) → width ≤ 4 → NoneMarked self.now address width }
    {
        self.shadow.has_four_clear(address, u8::MAX)
    }

    // Takes in an event. Nearly each instruction has nothing to find, and only moves marks.
    #[inline(always)]
    fn take_in(&mut self, event: &Event)
        requires { Fits self.old.ram_kib event.now }
        ensures { self.new ≡ after self.old event.now }
    {
        match event {
            Event::Exec { word, access, .. }
                if !may_announce(*word) && !self.jumps_marked(decode(*word)) => {
                self.give(*word, access)
            }
            _ => self.take_in_whole(event),
        }
    }

    // Takes in an event, whatever it is.
    #[cold]
    fn take_in_whole(&mut self, event: &Event)
        requires { Fits self.old.ram_kib event.now }
        ensures { self.new ≡ after self.old event.now }
    {
        match *event {
            Event::Dma { address, mark, .. } => self.put_bytes(address, 4, mark),
            Event::Irq { .. } | Event::Trap { .. } => {}
            Event::Exec {
                step,
                pc,
                word,
                next,
                access,
                told,
                ..
            } => {
                let announced = Announcement::of(word, told);
                let finding = self.look(step, pc, next, decode(word), announced);
                self.give(word, &access);
                self.found.note(finding);
            }
        }
    }

    // What there is to find at an instruction that goes on at `next`, with this announcement.
    #[inline(always)]
    fn look(
        &self,
        step: u32,
        pc: u32,
        next: u32,
        instr: Option<Instr>,
        announced: Option<Announcement>,
    ) -> Option<Finding>
        ensures { result ≡ option_map (finding_at step pc)
            (option_or (jump (mark_now self.now) instr next)
            (leak self.now.ram_kib (mark_now self.now) announced)) }
    {
        if self.jumps_marked(instr) {
            return Some(Finding {
                step,
                pc,
                kind: FindingKind::Jump,
                address: next,
            });
        }
        match self.first_leak(announced) {
            Some(address) => Some(Finding {
                step,
                pc,
                kind: FindingKind::Leak,
                address,
            }),
            None => None,
        }
    }

    // Whether it is a jump to a marked address.
    #[inline(always)]
    fn jumps_marked(&self, instr: Option<Instr>) -> bool
        ensures { result ≡ is_marked_jump (mark_now self.now) instr }
    {
        match instr {
            Some(Instr::Jalr { rs1, .. }) => self.register(rs1) != 0,
            _ => false,
        }
    }

    // The least marked byte of RAM in a range that must be unmarked.
    fn first_leak(&self, announced: Option<Announcement>) -> Option<u32>
        ensures { option_map leaked result ≡ leak self.now.ram_kib (mark_now self.now) announced }
    {
        match announced {
            Some(Announcement::Check { address, size }) => {
                let start = u64::from(address);
                self.first_marked(start, start + u64::from(size.min(MOST_CHECKED)))
            }
            _ => None,
        }
    }

    // The least marked byte of RAM in `[from, to)`.
    fn first_marked(&self, from: u64, to: u64) -> Option<u32>
        ensures { result
            ≡ least_in_ram self.now.ram_kib (λ a. is_marked (mark_now self.now (Byte a))) from to }
    {
        self.shadow.first_of(from, to, u8::MAX)
    }

    // The mark of a register. That of x0 is never written.
    #[inline(always)]
    fn register(&self, number: u32) -> u8
        ensures { result ≡ mark_now self.now (Register number) }
    {
        match self.registers.get(number as usize) {
            Some(mark) => *mark,
            None => 0,
        }
    }

    // Gives the marks of the instruction `word` that made this access. Each frequent opcode has a body of its own, which the
    // compiler frees of what other opcodes need.
    #[inline(always)]
    fn give(&mut self, word: u32, access: &Access)
        requires { AccessFits self.old.ram_kib access.now }
        ensures { self.new ≡ with_given self.old
            (marked_by (mark_now self.old) (writes_as (instruction word) access.now)) }
    {
        match word % 128 {
            LOAD => self.give_opcode::<LOAD>(word, access),
            STORE => self.give_opcode::<STORE>(word, access),
            BRANCH => self.give_opcode::<BRANCH>(word, access),
            OP_IMM => self.give_opcode::<OP_IMM>(word, access),
            OP => self.give_opcode::<OP>(word, access),
            _ => self.give_word(word, access),
        }
    }

    // Gives the marks of a word of this opcode.
    fn give_opcode<const OPCODE: u32>(&mut self, word: u32, access: &Access)
        requires { AccessFits self.old.ram_kib access.now }
        ensures { self.new ≡ with_given self.old
            (marked_by (mark_now self.old) (writes_as (instruction word) access.now)) }
    {
        if word % 128 == OPCODE {
            self.give_decoded(decode(word), access)
        } else {
            self.give_word(word, access)
        }
    }

    // Gives the marks of a word of any opcode.
    #[inline(never)]
    fn give_word(&mut self, word: u32, access: &Access)
        requires { AccessFits self.old.ram_kib access.now }
        ensures { self.new ≡ with_given self.old
            (marked_by (mark_now self.old) (writes_as (instruction word) access.now)) }
    {
        self.give_decoded(decode(word), access)
    }

    // Gives the marks of what a word spells; where that is none, nothing.
    #[inline(always)]
    fn give_decoded(&mut self, instr: Option<Instr>, access: &Access)
        requires { AccessFits self.old.ram_kib access.now }
        ensures { self.new ≡ with_given self.old
            (marked_by (mark_now self.old) (writes_as instr access.now)) }
    {
        match instr {
            Some(instr) => self.give_by(instr, access),
            None => {}
        }
    }

    // Gives the marks of an instruction.
    #[tactic(auto, using(crate::proofs::MarkLaws::or_nothing, crate::proofs::MarkLaws::marked_by_stored))]
    #[inline(always)]
    fn give_by(&mut self, instr: Instr, access: &Access)
        requires { AccessFits self.old.ram_kib access.now }
        ensures { self.new ≡ with_given self.old
            (marked_by (mark_now self.old) (writes_by instr access.now)) }
    {
        match instr {
            Instr::Lui { rd, .. }
            | Instr::Auipc { rd, .. }
            | Instr::Jal { rd, .. }
            | Instr::Jalr { rd, .. } => self.put_register(rd, 0),
            Instr::Load { rd, .. } => self.load(rd, access),
            Instr::Store { rs2, .. } => self.store(access, self.register(rs2)),
            Instr::OpImm { rd, rs1, .. } => self.put_register(rd, self.register(rs1)),
            Instr::Op { op, rd, rs1, rs2 } => self.put_register(
                rd,
                self.operation_mark(op, rs1, rs2),
            ),
            Instr::Atomic { op, rd, rs2, .. } => self.exchange(op, rd, rs2, access),
            Instr::Csr {
                op,
                rd,
                source,
                csr,
            } => self.move_csr(op, rd, source, csr),
            Instr::Branch { .. }
            | Instr::Fence { .. }
            | Instr::Ecall
            | Instr::Ebreak
            | Instr::Mret
            | Instr::Wfi => {}
        }
    }

    // Gives the marks of a load: the register gets those of the bytes of RAM, or that of the device register.
    #[inline(always)]
    fn load(&mut self, rd: u32, access: &Access)
        requires { AccessFits self.old.ram_kib access.now }
        ensures { self.new ≡ with_given self.old
            (marked_by (mark_now self.old) (writes_with rd (sources_loaded access.now) no_writes)) }
    {
        match *access {
            Access::Load {
                device: true,
                mark,
                ..
            } => self.put_register(rd, mark),
            Access::Load {
                address,
                width,
                device: false,
                ..
            } => self.put_register(rd, self.bytes(address, width)),
            _ => {}
        }
    }

    // Gives the bytes of a store to RAM this mark. A device register keeps none.
    #[inline(always)]
    fn store(&mut self, access: &Access, mark: u8)
        requires { AccessFits self.old.ram_kib access.now }
        ensures { self.new ≡ with_given self.old (given_stored access.now mark) }
    {
        match *access {
            Access::Store {
                address,
                width,
                device: false,
                ..
            } => self.put_bytes(address, width, mark),
            Access::Swap { address, .. } => self.put_bytes(address, 4, mark),
            _ => {}
        }
    }

    // The mark of what an operation makes of two registers. The exclusive or of a register with itself, and the difference,
    // are 0 whatever it holds.
    #[tactic(auto, using(crate::proofs::MarkLaws::or_nothing))]
    #[inline(always)]
    fn operation_mark(&self, op: RegOp, rs1: u32, rs2: u32) -> u8
        ensures { result ≡ mark_of (mark_now self.now) (operands op rs1 rs2) }
    {
        match op {
            RegOp::Xor | RegOp::Sub if rs1 == rs2 => 0,
            _ => self.register(rs1) | self.register(rs2),
        }
    }

    // Gives the marks of an atomic.
    #[tactic(auto, using(crate::proofs::MarkLaws::or_nothing, crate::proofs::MarkLaws::marked_by_stored))]
    fn exchange(&mut self, op: AtomicOp, rd: u32, rs2: u32, access: &Access)
        requires { AccessFits self.old.ram_kib access.now }
        ensures { self.new ≡ with_given self.old
            (marked_by (mark_now self.old) (atomic_writes op rd rs2 access.now)) }
    {
        let old = self.old_mark(access);
        match op {
            AtomicOp::Lr => self.load(rd, access),
            AtomicOp::Sc => self.swap(rd, 0, access, self.register(rs2)),
            AtomicOp::Swap => self.swap(rd, old, access, self.register(rs2)),
            _ => self.swap(rd, old, access, self.register(rs2) | old),
        }
    }

    // Gives a mark to the register, and one to the bytes that are stored.
    fn swap(&mut self, rd: u32, loaded: u8, access: &Access, stored: u8)
        requires { AccessFits self.old.ram_kib access.now }
        ensures { self.new ≡ with_given self.old
            (given_result rd (Some loaded) (given_stored access.now stored)) }
    {
        self.store(access, stored);
        self.put_register(rd, loaded);
    }

    // The mark of the bytes that an atomic operation reads.
    fn old_mark(&self, access: &Access) -> u8
        requires { AccessFits self.now.ram_kib access.now }
        ensures { result ≡ union_of (mark_now self.now) (old_bytes access.now) }
    {
        match *access {
            Access::Swap { address, .. } => self.bytes(address, 4),
            _ => 0,
        }
    }

    // The mark of what is made of these bytes. Most have none.
    #[inline(always)]
    fn bytes(&self, address: u32, width: u32) -> u8
        requires few { width ≤ 4 }
        requires within { InRam (1024 * self.now.ram_kib) address width }
        ensures { result ≡ union_of (mark_now self.now) (bytes_from address width) }
    {
        if self.is_unmarked(address) {
            0
        } else {
            self.union_of(address, width)
        }
    }

    // The marks of these bytes together.
    #[tactic(auto, using(crate::proofs::MarkLaws::bytes_more))]
    fn union_of(&self, address: u32, width: u32) -> u8
        requires { InRam (1024 * self.now.ram_kib) address width }
        ensures { result ≡ union_of (mark_now self.now) (bytes_from address width) }
    {
        let mut mark = 0;
        for index in (0..width).rev() {
            mark = self.shadow.get(address + index) | mark;
        }
        mark
    }

    // Gives the marks of an access to a CSR.
    #[tactic(auto, using(crate::proofs::MarkLaws::or_nothing))]
    fn move_csr(&mut self, op: CsrOp, rd: u32, source: u32, csr: u32)
        ensures { self.new ≡ with_given self.old
            (marked_by (mark_now self.old) (csr_writes op rd source csr)) }
    {
        if csr != MSCRATCH {
            return self.put_register(rd, 0);
        }
        let scratch = self.scratch_written(op, source);
        self.put_register(rd, self.scratch);
        self.put_scratch(scratch);
    }

    // The mark that an access to mscratch gives it; none where it writes nothing.
    #[tactic(auto, using(crate::proofs::MarkLaws::or_nothing))]
    fn scratch_written(&self, op: CsrOp, source: u32) -> Option<u8>
        ensures { result ≡ option_map (mark_of (mark_now self.now)) (scratch_writes op source) }
    {
        match op {
            CsrOp::Csrrw => Some(self.register(source)),
            CsrOp::Csrrs | CsrOp::Csrrc if source == 0 => None,
            CsrOp::Csrrs | CsrOp::Csrrc => Some(self.scratch | self.register(source)),
            CsrOp::Csrrwi => Some(0),
            CsrOp::Csrrsi | CsrOp::Csrrci => None,
        }
    }

    // Gives a register a mark; x0 never has one.
    #[inline(always)]
    fn put_register(&mut self, rd: u32, mark: u8)
        ensures { self.new ≡ record self.old {
          registers = registers_with self.old.registers rd
              (Some mark);
        } }
    {
        if rd >= 1 && rd < 32 {
            let place = rd as usize;
            self.held = held_with(self.held, self.registers[place], mark);
            self.registers[place] = mark;
        }
    }

    // Gives mscratch a mark, where there is one to give.
    fn put_scratch(&mut self, mark: Option<u8>)
        ensures { self.new ≡ record self.old { scratch = unwrap_or mark self.old.scratch } }
    {
        if let Some(mark) = mark {
            self.held = held_with(self.held, self.scratch, mark);
            self.scratch = mark;
        }
    }

    // Gives at most four bytes of RAM a mark. Most bytes that get none had none.
    #[inline(always)]
    fn put_bytes(&mut self, address: u32, width: u32, mark: u8)
        requires { width ≤ 4 }
        ensures { self.new ≡ record self.old {
          shade = shade_with self.old.shade address width
              (Some mark);
        } }
    {
        if mark != 0 || !self.is_unmarked(address) {
            self.paint(address, width, mark);
        }
    }

    // Gives so many bytes of RAM a mark.
    fn paint(&mut self, address: u32, width: u32, mark: u8)
        ensures { self.new ≡ record self.old {
          shade = shade_with self.old.shade address width
              (Some mark);
        } }
    {
        let start = u64::from(address);
        self.shadow.paint(start, start + u64::from(width), mark);
    }
}
