//! Nested calls, and returns that go elsewhere.
ghost use Rattle.std.specs.Prelude.{◌≡◌};
ghost use Rattle.run_events.specs.Event.{Fits};

use crate::Calls;
use elf_image::read_flat;
use memory_map::RAM_START;
use run_events::{Access, Event, Told, Watcher};
use std::test::Fail;

const CALL: u32 = 0x0040_00EF;

const RETURN: u32 = 0x0000_8067;

const CALL_BACK: u32 = 0x0002_80E7;

const ENTER: u32 = 0x0050_2013;

// The address after the instruction with this number, counted from the start of RAM.
fn after(number: u32) -> u32 {
    RAM_START + 4 * (number % 8192) + 4
}

// The instruction with this number.
fn executed(word: u32, number: u32, next: u32, a0: u32) -> Event
    ensures { Fits 64 result }
{
    Event::Exec {
        step: number,
        pc: RAM_START + 4 * (number % 8192),
        word,
        next,
        result: 0,
        access: Access::Quiet,
        told: Told { a0, a1: 0, a2: 0 },
    }
}

// So many calls, and then as many returns, each to the instruction after its call.
fn nest(calls: &mut Calls, depth: u32)
    requires { calls.old.ram_kib ≡ 64 }
    ensures { calls.new.ram_kib ≡ 64 }
{
    for number in 0..depth {
        calls.see(&executed(CALL, number, 0, 0));
    }
    for number in (0..depth).rev() {
        calls.see(&executed(RETURN, 0, after(number), 0));
    }
}

#[test]
fn answers_the_newest_calls(rt: HostRuntime) -> Result<(), Fail> {
    let image = read_flat(rt.alloc(), vec![in rt.alloc(); 0u8; 4]?)?;
    let cases: [(u32, u64); 4] = [(0, 0), (1, 0), (4096, 0), (4097, 1)];
    for (depth, unmatched) in cases {
        let mut calls = Calls::new(rt.alloc(), &image, 64)?;
        nest(&mut calls, depth);
        assert_eq!(rt;
            (calls.count(), calls.unmatched()),
            (0, unmatched),
            "{depth}"
        );
    }
    Ok(())
}

#[test]
fn tells_returns_that_go_elsewhere(rt: HostRuntime) -> Result<(), Fail> {
    let image = read_flat(rt.alloc(), vec![in rt.alloc(); 0u8; 4]?)?;
    let mut calls = Calls::new(rt.alloc(), &image, 64)?;
    // each with the numbers of findings and of returns without a call after it
    let cases: [(u32, u32, u32, u32, u64, u64); 8] = [
        (RETURN, 1, 0x8000_0100, 0, 0, 1),
        (CALL, 2, 0x8000_0100, 0, 0, 1),
        (ENTER, 3, 0x8000_0010, 63, 0, 1),
        (RETURN, 4, 0x8000_000C, 0, 0, 2),
        (ENTER, 5, 0x8000_0018, 64, 0, 2),
        (ENTER, 6, 0x8000_001C, 0, 0, 2),
        (CALL_BACK, 7, 0x8000_0010, 0, 1, 2),
        (RETURN, 8, 0x8000_0020, 0, 1, 2),
    ];
    for (word, number, next, a0, count, unmatched) in cases {
        calls.see(&executed(word, number, next, a0));
        assert_eq!(rt;
            (calls.count(), calls.unmatched()),
            (count, unmatched),
            "{number}"
        );
    }
    assert_eq!(rt; calls.first(), Some(7));
    let kept = calls
        .kept()
        .first()
        .map(|finding| (finding.pc, finding.address));
    assert_eq!(rt; kept, Some((0x8000_001C, 0x8000_000C)));
    Ok(())
}
