//! Accesses with and without their locks, and locks taken and given back.
ghost use Rattle.std.specs.Prelude.{◌≡◌};
ghost use Rattle.run_events.specs.Event.{Fits};

use crate::Locks;
use elf_image::read_flat;
use memory_map::{RAM_START, SERIAL_DATA};
use run_events::{Access, Event, FindingKind, Told, Watcher};
use std::test::Fail;

const ACQUIRE: u32 = 0x0030_2013;

const RELEASE: u32 = 0x0040_2013;

const ENTER: u32 = 0x0050_2013;

const GUARD: u32 = 0x0070_2013;

// The announcement `word` with these arguments, at this step.
fn announced(step: u32, word: u32, a0: u32, a1: u32, a2: u32) -> Event
    ensures { Fits 64 result }
{
    Event::Exec {
        step,
        pc: RAM_START,
        word,
        next: RAM_START + 4,
        result: 0,
        access: Access::Quiet,
        told: Told { a0, a1, a2 },
    }
}

// A store of a word to a device register at this address.
fn stored(step: u32, address: u32) -> Event
    ensures { Fits 64 result }
{
    Event::Exec {
        step,
        pc: RAM_START,
        word: 0x0055_2023,
        next: RAM_START + 4,
        result: 0,
        access: Access::Store {
            address,
            width: 4,
            value: 65,
            device: true,
        },
        told: Told {
            a0: 0,
            a1: 0,
            a2: 0,
        },
    }
}

#[test]
fn tells_each_misuse(rt: HostRuntime) -> Result<(), Fail> {
    let image = read_flat(rt.alloc(), vec![in rt.alloc(); 0u8; 4]?)?;
    let mut locks = Locks::new(rt.alloc(), &image, 64)?;
    // each announcement, and the number of findings after it and a store of a word to the serial line
    let steps: [(u32, u32, u32, u32, u32, u64); 11] = [
        (0, GUARD, SERIAL_DATA + 2, 8, 9, 1),
        (1, GUARD, SERIAL_DATA + 1, 1, 7, 2),
        (2, ACQUIRE, 7, 0, 0, 3),
        (3, ACQUIRE, 9, 0, 0, 3),
        (4, ENTER, 64, 0, 0, 3),
        (5, ENTER, 63, 0, 0, 4),
        (6, ACQUIRE, 9, 0, 0, 6),
        (7, RELEASE, 7, 0, 0, 8),
        (8, RELEASE, 9, 0, 0, 9),
        (9, ENTER, 0, 0, 0, 10),
        (10, RELEASE, 9, 0, 0, 12),
    ];
    for (step, word, a0, a1, a2, count) in steps {
        locks.see(&announced(step, word, a0, a1, a2));
        locks.see(&stored(step, SERIAL_DATA));
        assert_eq!(rt; locks.count(), count, "{step}");
    }
    let wanted: [(usize, u32, FindingKind, u32); 5] = [
        (0, 0, FindingKind::Unguarded, SERIAL_DATA + 2),
        (1, 1, FindingKind::Unguarded, SERIAL_DATA + 1),
        (2, 2, FindingKind::Unguarded, SERIAL_DATA + 2),
        (4, 6, FindingKind::Reacquire, 9),
        (6, 7, FindingKind::BadRelease, 7),
    ];
    for (index, step, kind, address) in wanted {
        let finding = locks.kept().get(index).copied();
        assert_eq!(rt;
            finding.map(|found| (found.step, found.address)),
            Some((step, address))
        );
        assert!(rt; finding.is_some_and(|found| found.kind == kind));
    }
    Ok(())
}
