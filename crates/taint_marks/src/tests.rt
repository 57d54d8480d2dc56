//! A marked byte on its way into a jump, and out of a checked range.
ghost use Rattle.std.specs.Prelude.{◌≡◌, ℕ, ◌+◌, ◌<◌};
ghost use Rattle.run_events.specs.Event.{Fits};

use crate::Taint;
use elf_image::read_flat;
use memory_map::RAM_START;
use run_events::{Access, Event, FindingKind, Told, Watcher};
use std::alloc::Global;
use std::test::Fail;

fn executed(step: u32, word: u32, a0: u32, a1: u32) -> Event
    requires { step < 1000 }
    ensures { Fits 64 result }
{
    let pc = RAM_START + 4 * step;
    Event::Exec {
        step,
        pc,
        word,
        next: pc + 4,
        result: 0,
        access: Access::Quiet,
        told: Told { a0, a1, a2: 0 },
    }
}

// LBU x6, 0(x5) of the serial line, which gives a marked byte.
fn marked_load(step: u32) -> Event
    requires { step < 1000 }
    ensures { Fits 64 result }
{
    let pc = RAM_START + 4 * step;
    Event::Exec {
        step,
        pc,
        word: 0x0002_C303,
        next: pc + 4,
        result: 0x61,
        access: Access::Load {
            address: 0x1000_0000,
            width: 1,
            value: 0x61,
            device: true,
            mark: 1,
        },
        told: Told {
            a0: 0,
            a1: 0,
            a2: 0,
        },
    }
}

// SW x6, 0(x5), at the start of RAM.
fn store(step: u32) -> Event
    requires { step < 1000 }
    ensures { Fits 64 result }
{
    let pc = RAM_START + 4 * step;
    Event::Exec {
        step,
        pc,
        word: 0x0062_A023,
        next: pc + 4,
        result: 0,
        access: Access::Store {
            address: RAM_START,
            width: 4,
            value: 0x61,
            device: false,
        },
        told: Told {
            a0: 0,
            a1: 0,
            a2: 0,
        },
    }
}

// Shows an event as a replay does: `see` looks at those alone that `try_see` does not pass.
fn show(taint: &mut Taint, event: Event)
    requires fits { Fits 64 event }
    requires size { taint.old.ram_kib ≡ 64 }
    ensures { taint.new.ram_kib ≡ 64 }
{
    if !taint.try_see(&event) {
        taint.see(&event);
    }
}

// The byte goes through mscratch and, by this word, through x7 into the address of a jump.
fn after_jump(alloc: Global, word: u32) -> Result<Taint, Fail> {
    let image = read_flat(alloc, vec![in alloc; 0u8; 4]?)?;
    let mut taint = Taint::new(alloc, &image, 64)?;
    show(&mut taint, executed(0, 0x1000_02B7, 0, 0));
    show(&mut taint, marked_load(1));
    show(&mut taint, executed(2, 0x3403_1073, 0, 0));
    show(&mut taint, executed(3, 0x3400_23F3, 0, 0));
    show(&mut taint, executed(4, word, 0, 0));
    show(&mut taint, executed(5, 0x0000_0E17, 0, 0));
    show(&mut taint, executed(6, 0x01C3_83B3, 0, 0));
    show(&mut taint, executed(7, 0x0103_8067, 0, 0));
    Ok(taint)
}

#[test]
fn follows_a_mark_into_a_jump(rt: HostRuntime) -> Result<(), Fail> {
    let taint = after_jump(rt.alloc(), 0xF9F3_8393)?;
    assert_eq!(rt; (taint.first(), taint.count()), (Some(7), 1));
    let kept = taint
        .kept()
        .last()
        .map(|finding| (finding.kind, finding.pc, finding.address));
    assert_eq!(rt; kept, Some((FindingKind::Jump, 0x8000_001C, 0x8000_0020)));
    let taint = after_jump(rt.alloc(), 0x0073_C3B3)?;
    assert_eq!(rt;
        (taint.first(), taint.count()),
        (None, 0),
        "x7 is cleared by XOR"
    );
    Ok(())
}

#[test]
fn checks_a_range(rt: HostRuntime) -> Result<(), Fail> {
    let image = read_flat(rt.alloc(), vec![in rt.alloc(); 0u8; 4]?)?;
    let mut taint = Taint::new(rt.alloc(), &image, 64)?;
    show(&mut taint, marked_load(0));
    show(&mut taint, executed(1, 0x0060_2013, 0x8000_0000, 4));
    show(&mut taint, store(2));
    show(&mut taint, executed(3, 0x0060_2013, 0x8000_0003, 1));
    show(
        &mut taint,
        executed(4, 0x0060_2013, 0x8000_0004, 0xFFFF_FFFF),
    );
    show(&mut taint, executed(5, 0x0060_2013, 0x7FFF_F000, 0x1001));
    show(&mut taint, executed(6, 0x0060_2013, 0x7FFF_F001, 0x1001));
    assert_eq!(rt; (taint.first(), taint.count()), (Some(3), 2));
    let kept = taint
        .kept()
        .last()
        .map(|finding| (finding.step, finding.kind, finding.address));
    assert_eq!(rt; kept, Some((6, FindingKind::Leak, 0x8000_0000)));
    Ok(())
}

#[test]
fn writes_over_a_mark(rt: HostRuntime) -> Result<(), Fail> {
    let image = read_flat(rt.alloc(), vec![in rt.alloc(); 0u8; 4]?)?;
    let mut taint = Taint::new(rt.alloc(), &image, 64)?;
    show(&mut taint, marked_load(0));
    show(&mut taint, store(1));
    // LUI x6, and a jump to x6
    show(&mut taint, executed(2, 0x1000_0337, 0, 0));
    show(&mut taint, executed(3, 0x0003_0067, 0, 0));
    assert_eq!(rt; (taint.first(), taint.count()), (None, 0));
    show(&mut taint, executed(4, 0x0060_2013, 0x8000_0000, 4));
    show(&mut taint, store(5));
    show(&mut taint, executed(6, 0x0060_2013, 0x8000_0000, 4));
    assert_eq!(rt; (taint.first(), taint.count()), (Some(4), 1));
    Ok(())
}
