//! The hart on small programs, whose values are worked by hand from the manuals.
ghost use Rattle.std.specs.Prelude.{◌≡◌, ◌≤◌, ◌*◌, [], IfOk, is_some, length};
ghost use Rattle.any_machine.specs.Machine.{is_load};

use crate::Cpu;
use memory_map::{NoMemory, RAM_START, SERIAL_DATA};
use run_events::{Event, Need, Supplied, Watcher};
use rv_memory::Ram;
use std::alloc::Global;
use std::test::Fail;

const WORD: u32 = 0x8000_0100;

// Writes a word where RAM holds the address.
fn place(ram: &mut Ram, address: u32, word: u32)
    ensures { length ram.new ≡ length ram.old }
{
    if ram.holds(address, 4) {
        ram.store(address, 4, word);
    }
}

// A hart at the first of these words.
fn hart_of(alloc: Global, words: &[u32]) -> Result<Cpu, NoMemory>
    ensures { IfOk result (λ cpu. length cpu.ram ≡ 1024 * 64) }
{
    let mut ram = Ram::new(alloc, 64)?;
    let mut address = RAM_START;
    for word in words {
        place(&mut ram, address, *word);
        address = address.wrapping_add(4);
    }
    Ok(Cpu::new(ram, RAM_START))
}

fn given(need: Need) -> Option<Supplied>
    ensures { is_load need ≡ is_some result }
{
    match need {
        Need::Load { .. } => Some(Supplied {
            value: 0x1ff,
            mark: 1,
        }),
        Need::Nothing => None,
    }
}

// Does some steps. Each load of a device register gives 1ff.
fn go(cpu: &mut Cpu, steps: u32) {
    for _ in 0..steps {
        if cpu.steps() < 1_000_000_000 {
            let need = cpu.next_need(0);
            let _event = cpu.step(0, given(need));
        }
    }
}

// What x7 holds after as many steps.
fn x7_after(alloc: Global, words: &[u32], steps: u32) -> Result<u32, NoMemory> {
    let mut cpu = hart_of(alloc, words)?;
    go(&mut cpu, steps);
    Ok(cpu.register(7))
}

// What an operation makes of x5 and x6, each set by two instructions.
fn operation(alloc: Global, first: [u32; 2], second: [u32; 2], word: u32) -> Result<u32, NoMemory> {
    x7_after(alloc, &[first[0], first[1], second[0], second[1], word], 5)
}

// lui x5, 80000; addi x5, x0, -1 and 7; addi x6, x0, -1 and 0; addi x0, x0, 0
const LEAST: [u32; 2] = [0x8000_02b7, 0x13];

const ONES: [u32; 2] = [0x13, 0xfff0_0293];

const SEVEN: [u32; 2] = [0x13, 0x0070_0293];

const BY_ONES: [u32; 2] = [0x13, 0xfff0_0313];

const BY_ZERO: [u32; 2] = [0x13, 0x0000_0313];

#[test]
fn computes_at_the_edges(rt: HostRuntime) -> Result<(), Fail> {
    let cases = [
        (SEVEN, BY_ZERO, 0x0262_c3b3, 0xffff_ffff, "div by 0"),
        (SEVEN, BY_ZERO, 0x0262_e3b3, 7, "rem by 0"),
        (LEAST, BY_ONES, 0x0262_c3b3, 0x8000_0000, "div overflows"),
        (LEAST, BY_ONES, 0x0262_e3b3, 0, "rem overflows"),
        (ONES, BY_ONES, 0x0262_93b3, 0, "mulh"),
        (ONES, BY_ONES, 0x0262_a3b3, 0xffff_ffff, "mulhsu"),
        (ONES, BY_ONES, 0x0262_b3b3, 0xffff_fffe, "mulhu"),
        (LEAST, BY_ONES, 0x4062_d3b3, 0xffff_ffff, "sra by 31"),
        (LEAST, BY_ONES, 0x0062_d3b3, 1, "srl by 31"),
        (ONES, BY_ZERO, 0x0002_a3b3, 1, "slt"),
        (ONES, BY_ZERO, 0x0002_b3b3, 0, "sltu"),
    ];
    for (first, second, word, value, name) in cases {
        assert_eq!(rt;
            operation(rt.alloc(), first, second, word)?,
            value,
            "{name}"
        );
    }
    Ok(())
}

// What a CSR holds after the word at 80000010 trapped to 80000028: lui x5, 80000; addi x6, x0, 28; add x6, x6, x5;
// csrrw x0, mtvec, x6.
fn trapped(alloc: Global, word: u32, reader: u32) -> Result<u32, NoMemory> {
    let words = [
        0x8000_02b7,
        0x0280_0313,
        0x0053_0333,
        0x3053_1073,
        word,
        0,
        0,
        0,
        0,
        0,
        reader,
    ];
    x7_after(alloc, &words, 6)
}

// csrrs x7 of mcause, mtval and mepc
const MCAUSE: u32 = 0x3420_23f3;

const MTVAL: u32 = 0x3430_23f3;

const MEPC: u32 = 0x3410_23f3;

#[test]
fn traps_with_cause_value_and_pc(rt: HostRuntime) -> Result<(), Fail> {
    let cases = [
        (0x0000_0000, MCAUSE, 2, "cause of no instruction"),
        (0x0000_0000, MTVAL, 0, "value of no instruction"),
        (0x0000_0000, MEPC, 0x8000_0010, "pc of no instruction"),
        (0x0000_0073, MCAUSE, 11, "cause of ecall"),
        (0x0000_0073, MTVAL, 0, "value of ecall"),
        (0x0000_0073, MEPC, 0x8000_0010, "pc of ecall"),
        (0x0022_a383, MCAUSE, 4, "cause of lw at a half"),
        (0x0022_a383, MTVAL, 0x8000_0002, "value of lw at a half"),
        (0x0022_a383, MEPC, 0x8000_0010, "pc of lw at a half"),
        (0x0032_83e7, MCAUSE, 0, "cause of jalr to a half"),
        (0x0032_83e7, MTVAL, 0x8000_0002, "value of jalr to a half"),
        (0x0032_83e7, MEPC, 0x8000_0010, "pc of jalr to a half"),
    ];
    for (word, reader, value, name) in cases {
        assert_eq!(rt; trapped(rt.alloc(), word, reader)?, value, "{name}");
    }
    Ok(())
}

#[test]
fn counts_and_reads_what_was_written(rt: HostRuntime) -> Result<(), Fail> {
    // csrrs x7, mcycle; csrrwi mcycle, 20; csrrs x7, mcycle
    let words = [0xb000_23f3, 0xb00a_5073, 0xb000_23f3];
    assert_eq!(rt; x7_after(rt.alloc(), &words, 1)?, 0);
    assert_eq!(rt; x7_after(rt.alloc(), &words, 3)?, 20);
    Ok(())
}

// x7 after LR and SC of the word at 80000100, with a word that the disk writes between them; 0 is success.
fn conditional(alloc: Global, written: u32) -> Result<u32, NoMemory> {
    // lui x5, 80000; addi x5, x5, 100; lr.w x6, (x5); sc.w x7, x6, (x5)
    let words = [0x8000_02b7, 0x1002_8293, 0x1002_a32f, 0x1862_a3af];
    let mut cpu = hart_of(alloc, &words)?;
    go(&mut cpu, 3);
    if cpu.holds(written) {
        let _event = cpu.dma(written, 1, 0);
    }
    go(&mut cpu, 1);
    Ok(cpu.register(7))
}

#[test]
fn a_disk_word_ends_its_reservation(rt: HostRuntime) -> Result<(), Fail> {
    assert_eq!(rt; conditional(rt.alloc(), 0)?, 0, "no word");
    assert_eq!(rt; conditional(rt.alloc(), WORD)?, 1, "the word");
    assert_eq!(rt; conditional(rt.alloc(), WORD + 4)?, 0, "the next word");
    Ok(())
}

#[test]
fn loads_what_a_device_gives(rt: HostRuntime) -> Result<(), Fail> {
    // lui x5, 10000; lb x7, 0(x5)
    let mut cpu = hart_of(rt.alloc(), &[0x1000_02b7, 0x0002_8383])?;
    go(&mut cpu, 1);
    let need = Need::Load {
        address: SERIAL_DATA,
        width: 1,
    };
    assert_eq!(rt; cpu.next_need(0), need);
    go(&mut cpu, 1);
    assert_eq!(rt; cpu.register(7), 0xffff_ffff);
    Ok(())
}

// A watcher that keeps the pc of the last event that it saw, and their number.
#[derive(Drop)]
struct Counter {
    events: u32,
    pc: u32,
}

impl Watcher for Counter {
    ghost has_seen = { λ _ _. Unit {0} };

    ghost ram_kib = { λ _. 64 };

    ghost make = { λ _. [] };

    fn see(&mut self, event: &Event) {
        self.events = self.events.saturating_add(1);
        if let Event::Exec { pc, .. } = event {
            self.pc = *pc;
        }
    }
}

// Shows the plain steps below a number of: addi x5, x0, 7; addi x5, x5, 7; ecall. Answers the steps done, the events
// seen, the last pc seen, x5 and the pc.
fn shown_below(alloc: Global, number: u32) -> Result<[u32; 5], NoMemory>
    requires { number ≤ 9 }
{
    let words = [0x0070_0293, 0x0072_8293, 0x0000_0073];
    let mut cpu = hart_of(alloc, &words)?;
    let mut counter = Counter { events: 0, pc: 0 };
    cpu.run_shown(0, number, &mut counter);
    Ok([
        cpu.steps(),
        counter.events,
        counter.pc,
        cpu.register(5),
        cpu.pc(),
    ])
}

#[test]
fn shows_plain_steps_alone(rt: HostRuntime) -> Result<(), Fail> {
    let cases = [
        (0, [0, 0, 0, 0, 0x8000_0000]),
        (1, [1, 1, 0x8000_0000, 7, 0x8000_0004]),
        (2, [2, 2, 0x8000_0004, 14, 0x8000_0008]),
        (9, [2, 2, 0x8000_0004, 14, 0x8000_0008]),
    ];
    for (number, shown) in cases {
        assert_eq!(rt; shown_below(rt.alloc(), number)?, shown, "{number}");
    }
    Ok(())
}
