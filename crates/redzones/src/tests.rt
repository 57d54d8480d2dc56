//! A block, its redzones and its end, to the byte.
ghost use Rattle.std.specs.Prelude.{ℕ, ◌+◌, ◌≤◌, ◌<◌};
ghost use Rattle.memory_map.specs.Ram.{InRam};
ghost use Rattle.run_events.specs.Event.{Fits};

use crate::Redzones;
use elf_image::read_flat;
use memory_map::RAM_START;
use run_events::{Access, Event, FindingKind, Told, Watcher};
use std::test::Fail;

// An instruction that announces with these values in a0 and a1.
fn announce(step: u32, word: u32, a0: u32, a1: u32) -> Event
    ensures { Fits 64 result }
{
    Event::Exec {
        step,
        pc: RAM_START,
        word,
        next: RAM_START + 4,
        result: 0,
        access: Access::Quiet,
        told: Told { a0, a1, a2: 0 },
    }
}

fn allocate(step: u32, address: u32, size: u32) -> Event
    ensures { Fits 64 result }
{
    announce(step, 0x0010_2013, address, size)
}

fn free(step: u32, address: u32, size: u32) -> Event
    ensures { Fits 64 result }
{
    announce(step, 0x0020_2013, address, size)
}

// LB x5, 0(x10), this many bytes after the start of RAM.
fn byte_load(step: u32, offset: u32) -> Event
    requires { offset < 65536 }
    ensures { Fits 64 result }
{
    Event::Exec {
        step,
        pc: RAM_START,
        word: 0x0005_0283,
        next: RAM_START + 4,
        result: 0,
        access: Access::Load {
            address: RAM_START + offset,
            width: 1,
            value: 0,
            device: false,
            mark: 0,
        },
        told: Told {
            a0: 0,
            a1: 0,
            a2: 0,
        },
    }
}

#[test]
fn guards_a_block_to_the_byte(rt: HostRuntime) -> Result<(), Fail> {
    let image = read_flat(rt.alloc(), vec![in rt.alloc(); 0u8; 4]?)?;
    let mut zones = Redzones::new(rt.alloc(), &image, 64)?;
    zones.see(&byte_load(0, 0x1000));
    zones.see(&allocate(1, 0x8000_1000, 8));
    zones.see(&byte_load(2, 0x0FEF));
    zones.see(&byte_load(3, 0x0FF0));
    zones.see(&byte_load(4, 0x1007));
    zones.see(&byte_load(5, 0x1008));
    zones.see(&byte_load(6, 0x1017));
    zones.see(&byte_load(7, 0x1018));
    zones.see(&free(8, 0x8000_1000, 8));
    zones.see(&byte_load(9, 0x1000));
    zones.see(&free(10, 0x8000_1000, 8));
    zones.see(&free(11, 0x8000_1000, 0));
    zones.see(&free(12, 0, 0xFFFF_FFFF));
    assert_eq!(rt; (zones.first(), zones.count()), (Some(3), 6));
    let wanted = [
        (3, FindingKind::Red, 0x8000_0FF0),
        (5, FindingKind::Red, 0x8000_1008),
        (6, FindingKind::Red, 0x8000_1017),
        (9, FindingKind::Freed, 0x8000_1000),
        (10, FindingKind::BadFree, 0x8000_1000),
        (12, FindingKind::BadFree, 0x8000_0000),
    ];
    assert_eq!(rt; zones.kept().len(), wanted.len());
    for (finding, (step, kind, address)) in zones.kept().iter().zip(wanted) {
        assert_eq!(rt;
            (finding.step, finding.kind, finding.address),
            (step, kind, address)
        );
    }
    Ok(())
}
