//! The texts of the head and of each kind's part, and a sink that fails between lines.
ghost use Rattle.std.specs.Prelude.{◌≡◌, ◌<◌, IfOk};
ghost use Rattle.run_events.specs.Event.{Fits};
ghost use Rattle.analysis_set.specs.Analysis.{kib_of};

use crate::{Analysis, AnyAnalysis, report_head, report_part};
use after_edge::{Failed, MemorySink};
use analysis_model::RunFacts;
use elf_image::read_flat;
use memory_map::{NoMemory, RAM_START};
use run_events::{Access, EndCause, Event, Kind, Told, Watcher};
use std::alloc::Global;
use std::test::Fail;

// jal x1, jalr x0 to x1, and jalr x0 to x5.
const CALL: u32 = 0x0100_00EF;

const RETURN: u32 = 0x0000_8067;

const JUMP: u32 = 0x0002_8067;

// A marked word from the disk, and a fetch outside the guest's code.
const MARKED_WORD: Event = Event::Dma {
    step: 0,
    address: 0x8000_2000,
    word: 0,
    mark: 1,
};

const OUTSIDE: Event = Event::Trap {
    step: 7,
    pc: 0x0bad_cafe,
    word: 0,
    cause: 0,
    value: 0x0bad_cafe,
    next: 0x8000_0000,
};

fn facts(end: EndCause) -> RunFacts {
    RunFacts {
        steps: 4_294_967_295,
        end,
        issued: 70_000,
        released: 69_999,
        items: 18_446_744_073_709_551_615,
    }
}

#[test]
fn writes_the_head(rt: HostRuntime) -> Result<(), Fail> {
    let cases = [
        (EndCause::Power { status: 255 }, "power 255"),
        (EndCause::Power { status: 0 }, "power 0"),
        (EndCause::Limit, "limit"),
    ];
    for (end, said) in cases {
        let mut sink = MemorySink::new(rt.alloc(), 1000, Vec::new(rt.alloc()))?;
        report_head(&facts(end), &mut sink)?;
        let want = format!(in rt.alloc();
            "\n== aftersight report\nsteps 4294967295\nend {said}\noutput 70000 released 69999\nrecords 18446744073709551615\n"
        )?;
        assert_eq!(rt; sink.bytes(), want.as_bytes(), "end {said}");
    }
    Ok(())
}

#[test]
fn stops_at_the_line_that_fails(rt: HostRuntime) -> Result<(), Fail> {
    let fails = vec![in rt.alloc(); (3u64, 4usize)]?;
    let mut sink = MemorySink::new(rt.alloc(), 1000, fails)?;
    assert_eq!(rt;
        report_head(&facts(EndCause::Limit), &mut sink),
        Err(Failed)
    );
    assert_eq!(rt; sink.bytes(), b"\n== aftersight report\nstep".as_slice());
    Ok(())
}

// An analysis of a guest of four bytes, with the least RAM.
fn analysis(alloc: Global, kind: Kind) -> Result<AnyAnalysis, NoMemory>
    ensures { IfOk result (λ analysis. kib_of analysis ≡ 64) }
{
    let image = read_flat(alloc, vec![in alloc; 0x13, 0, 0, 0]?)?;
    AnyAnalysis::new(alloc, kind, &image, 64)
}

// An instruction at the start of RAM that accesses nothing.
fn executed(step: u32, word: u32, next: u32, told: Told) -> Event
    ensures { Fits 64 result }
{
    Event::Exec {
        step,
        pc: RAM_START,
        word,
        next,
        result: 0,
        access: Access::Quiet,
        told,
    }
}

// slti x0, x0, k, with these values in a0, a1 and a2.
fn announced(step: u32, k: u32, a0: u32, a1: u32, a2: u32) -> Event
    requires { k < 8 }
    ensures { Fits 64 result }
{
    executed(
        step,
        k * 0x10_0000 + 0x2013,
        RAM_START + 4,
        Told { a0, a1, a2 },
    )
}

// One of the jumps, to this many bytes after the start of RAM.
fn jumped(step: u32, word: u32, offset: u32) -> Event
    requires { offset < 65536 }
    ensures { Fits 64 result }
{
    executed(
        step,
        word,
        RAM_START + offset,
        Told {
            a0: 0,
            a1: 0,
            a2: 0,
        },
    )
}

// lb x5, 0(x10), this many bytes after the start of RAM.
fn loaded(step: u32, offset: u32) -> Event
    requires { offset < 65536 }
    ensures { Fits 64 result }
{
    Event::Exec {
        step,
        pc: RAM_START,
        word: 0x0005_0283,
        next: RAM_START + 4,
        result: 0,
        access: Access::Load {
            address: RAM_START + offset,
            width: 1,
            value: 0,
            device: false,
            mark: 0,
        },
        told: Told {
            a0: 0,
            a1: 0,
            a2: 0,
        },
    }
}

fn part(alloc: Global, analysis: &AnyAnalysis) -> Result<MemorySink, Fail> {
    let mut sink = MemorySink::new(alloc, 1000, Vec::new(alloc))?;
    report_part(analysis, &mut sink)?;
    Ok(sink)
}

#[test]
fn writes_the_part_of_heap(rt: HostRuntime) -> Result<(), Fail> {
    let mut heap = analysis(rt.alloc(), Kind::Heap)?;
    heap.see(&announced(1, 1, 0x8000_1000, 8, 0));
    heap.see(&loaded(2, 0x0FF0));
    heap.see(&announced(3, 2, 0x8000_1000, 8, 0));
    heap.see(&loaded(4, 0x1000));
    heap.see(&announced(5, 2, 0x8000_1000, 8, 0));
    let want =
        "heap findings 3 first 2\nheap red at 2 pc 80000000 addr 80000ff0\nheap freed at 4 pc 80000000 addr 80001000\nheap badfree at 5 pc 80000000 addr 80001000\n";
    assert_eq!(rt; part(rt.alloc(), &heap)?.bytes(), want.as_bytes());
    assert_eq!(rt; (heap.kind(), heap.first()), (Kind::Heap, Some(2)));
    assert_eq!(rt; (heap.count(), heap.kept().len()), (3, 3));
    Ok(())
}

#[test]
fn writes_the_part_of_taint(rt: HostRuntime) -> Result<(), Fail> {
    let mut taint = analysis(rt.alloc(), Kind::Taint)?;
    taint.see(&MARKED_WORD);
    taint.see(&loaded(1, 0x2000));
    taint.see(&jumped(2, JUMP, 0x100));
    taint.see(&announced(3, 6, 0x8000_1FFE, 4, 0));
    let want =
        "taint findings 2 first 2\ntaint jump at 2 pc 80000000 addr 80000100\ntaint leak at 3 pc 80000000 addr 80002000\n";
    assert_eq!(rt; part(rt.alloc(), &taint)?.bytes(), want.as_bytes());
    Ok(())
}

#[test]
fn writes_the_part_of_calls(rt: HostRuntime) -> Result<(), Fail> {
    let mut calls = analysis(rt.alloc(), Kind::Calls)?;
    calls.see(&jumped(0, RETURN, 4));
    calls.see(&jumped(1, CALL, 16));
    calls.see(&jumped(2, RETURN, 16));
    let want =
        "calls findings 1 first 2\ncalls unmatched 1\ncalls return at 2 pc 80000000 addr 80000004\n";
    assert_eq!(rt; part(rt.alloc(), &calls)?.bytes(), want.as_bytes());
    Ok(())
}

#[test]
fn writes_the_part_of_coverage(rt: HostRuntime) -> Result<(), Fail> {
    let mut cover = analysis(rt.alloc(), Kind::Cover)?;
    cover.see(&jumped(0, CALL, 16));
    let want = "cover findings 0 first none\ncover pcs 1 ranges 1\ncover range 80000000 80000004\n";
    assert_eq!(rt;
        part(rt.alloc(), &cover)?.bytes(),
        want.as_bytes(),
        "no finding"
    );
    cover.see(&OUTSIDE);
    let want =
        "cover findings 1 first 7\ncover pcs 1 ranges 1\ncover range 80000000 80000004\ncover outside at 7 pc 0badcafe addr 0badcafe\n";
    assert_eq!(rt;
        part(rt.alloc(), &cover)?.bytes(),
        want.as_bytes(),
        "one finding"
    );
    Ok(())
}

#[test]
fn writes_the_part_of_locks(rt: HostRuntime) -> Result<(), Fail> {
    let mut locks = analysis(rt.alloc(), Kind::Locks)?;
    locks.see(&announced(0, 7, 0x8000_3000, 4, 7));
    locks.see(&loaded(1, 0x3001));
    locks.see(&announced(2, 3, 7, 0, 0));
    locks.see(&announced(3, 3, 7, 0, 0));
    locks.see(&announced(4, 4, 7, 0, 0));
    locks.see(&announced(5, 4, 7, 0, 0));
    let want =
        "locks findings 3 first 1\nlocks unguarded at 1 pc 80000000 addr 80003001\nlocks reacquire at 3 pc 80000000 addr 00000007\nlocks badrelease at 5 pc 80000000 addr 00000007\n";
    assert_eq!(rt; part(rt.alloc(), &locks)?.bytes(), want.as_bytes());
    Ok(())
}
