//! Ranges and findings of short runs.
ghost use Rattle.std.specs.Prelude.{◌≡◌, ◌%◌, ◌<◌};
ghost use Rattle.run_events.specs.Event.{Fits};

use crate::Coverage;
use elf_image::read_flat;
use memory_map::RAM_START;
use run_events::{Access, Event, Told, Watcher};
use std::test::Fail;

// A nop, executed this many bytes after the start of RAM.
fn executed(step: u32, offset: u32) -> Event
    requires aligned { offset % 4 ≡ 0 }
    requires near { offset < 65536 }
    ensures { Fits 64 result }
{
    let pc = RAM_START + offset;
    Event::Exec {
        step,
        pc,
        word: 0x13,
        next: pc + 4,
        result: 0,
        access: Access::Quiet,
        told: Told {
            a0: 0,
            a1: 0,
            a2: 0,
        },
    }
}

// A fetch below RAM.
fn trapped(step: u32) -> Event
    ensures { Fits 64 result }
{
    Event::Trap {
        step,
        pc: 0x10,
        word: 0,
        cause: 1,
        value: 0x10,
        next: RAM_START,
    }
}

fn range_at(coverage: &Coverage, index: u64) -> Option<(u32, u32)> {
    if index < coverage.ranges() {
        Some(coverage.range(index))
    } else {
        None
    }
}

#[test]
fn tells_ranges_and_findings(rt: HostRuntime) -> Result<(), Fail> {
    let image = read_flat(rt.alloc(), vec![in rt.alloc(); 0u8; 32]?)?;
    let mut coverage = Coverage::new(rt.alloc(), &image, 64)?;
    assert_eq!(rt; (coverage.pcs(), coverage.ranges()), (0, 0));
    coverage.see(&executed(0, 0));
    coverage.see(&executed(1, 4));
    coverage.see(&executed(2, 8));
    coverage.see(&executed(3, 4));
    coverage.see(&executed(4, 16));
    coverage.see(&executed(5, 28));
    assert_eq!(rt; (coverage.pcs(), coverage.ranges()), (5, 3));
    assert_eq!(rt; range_at(&coverage, 0), Some((0x8000_0000, 0x8000_000C)));
    assert_eq!(rt; range_at(&coverage, 1), Some((0x8000_0010, 0x8000_0014)));
    assert_eq!(rt; range_at(&coverage, 2), Some((0x8000_001C, 0x8000_0020)));
    coverage.see(&executed(6, 12));
    assert_eq!(rt; (coverage.pcs(), coverage.ranges()), (6, 2));
    assert_eq!(rt; range_at(&coverage, 0), Some((0x8000_0000, 0x8000_0014)));
    assert_eq!(rt; (coverage.first(), coverage.count()), (None, 0));
    coverage.see(&executed(7, 32));
    coverage.see(&executed(8, 65532));
    assert_eq!(rt; range_at(&coverage, 1), Some((0x8000_001C, 0x8000_0024)));
    assert_eq!(rt; range_at(&coverage, 2), Some((0x8000_FFFC, 0x8001_0000)));
    assert_eq!(rt; (coverage.first(), coverage.count()), (Some(7), 2));
    assert_eq!(rt;
        coverage.kept().last().map(|finding| finding.address),
        Some(0x8000_FFFC)
    );
    Ok(())
}

#[test]
fn counts_on_behind_the_kept(rt: HostRuntime) -> Result<(), Fail> {
    let image = read_flat(rt.alloc(), vec![in rt.alloc(); 0u8; 4]?)?;
    let mut coverage = Coverage::new(rt.alloc(), &image, 64)?;
    for step in 3..73u32 {
        coverage.see(&trapped(step));
    }
    assert_eq!(rt; (coverage.first(), coverage.count()), (Some(3), 70));
    assert_eq!(rt; coverage.kept().len(), 64);
    assert_eq!(rt;
        coverage
            .kept()
            .last()
            .map(|finding| (finding.step, finding.address)),
        Some((66, 0x10))
    );
    assert_eq!(rt; coverage.pcs(), 0);
    Ok(())
}
