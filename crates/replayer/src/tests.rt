//! Lists that fit and lists that do not.
ghost use Rattle.std.specs.Prelude.{◌≡◌, ◌≤◌, [], length, IfOk};
ghost use Rattle.run_events.specs.Record.{IsRecord};

use crate::{Diverged, Replay, Why};
use elf_image::read_flat;
use memory_map::NoMemory;
use run_events::{EndCause, Event, Record, Watcher};
use std::alloc::Global;
use std::test::Fail;

// A watcher that counts.
#[derive(Drop)]
struct Counter {
    ram_kib: u32,
    events: u32,
}

impl Watcher for Counter {
    ghost has_seen = { λ _ _. Unit {0} };

    ghost ram_kib = { λ c. c.ram_kib };

    ghost make = { λ _. [] };

    fn see(&mut self, _event: &Event) {
        self.events = self.events.saturating_add(1);
    }
}

// A flat guest of five instructions that writes H and powers off.
fn hello(alloc: Global) -> Result<Vec<u8>, NoMemory>
    ensures { IfOk result (λ file. length file.items ≡ 20) }
{
    Ok(vec![in alloc;
        0x37u8, 0x05, 0x00, 0x10, 0x93, 0x05, 0x80, 0x04, 0x23, 0x00, 0xB5, 0x00, 0x37, 0x06, 0x10,
        0x10, 0x23, 0x20, 0x06, 0x00,
    ]?)
}

// The fault at the second of two records, and the number of events shown.
fn fed(alloc: Global, first: Record, second: Record) -> Result<(Option<Diverged>, u32), NoMemory>
    requires first { IsRecord first }
    requires second { IsRecord second }
{
    let image = read_flat(alloc, hello(alloc)?)?;
    let mut replay = Replay::new(alloc, &image, 64)?;
    let mut counter = Counter {
        ram_kib: 64,
        events: 0,
    };
    let _ = replay.take(&first, &mut counter);
    let fault = replay.take(&second, &mut counter).err();
    Ok((fault, counter.events))
}

fn at(step: u32, why: Why) -> Option<Diverged> {
    Some(Diverged { step, why })
}

#[test]
fn takes_its_own_log(rt: HostRuntime) -> Result<(), Fail> {
    let end = Record::End {
        step: 5,
        cause: EndCause::Power { status: 0 },
    };
    assert_eq!(rt; fed(rt.alloc(), Record::Reach { step: 3 }, end)?, (None, 5));
    assert_eq!(rt; fed(rt.alloc(), Record::Reach { step: 5 }, end)?, (None, 5));
    Ok(())
}

fn ends(step: u32, cause: EndCause) -> Record
    requires { step ≤ 1000000000 }
    ensures { IsRecord result }
{
    Record::End { step, cause }
}

#[test]
fn refuses_a_falling_number(rt: HostRuntime) -> Result<(), Fail> {
    let mark = Record::Reach { step: 3 };
    let falls = at(2, Why::StepFalls);
    let stays = at(3, Why::StepFalls);
    assert_eq!(rt;
        fed(rt.alloc(), mark, Record::Reach { step: 2 })?,
        (falls, 3)
    );
    assert_eq!(rt; fed(rt.alloc(), mark, mark)?, (stays, 3));
    Ok(())
}

#[test]
fn refuses_a_list_that_ends_elsewhere(rt: HostRuntime) -> Result<(), Fail> {
    let mark = Record::Reach { step: 3 };
    let power = at(4, Why::EndsElsewhere);
    let other = ends(5, EndCause::Power { status: 1 });
    let early = ends(4, EndCause::Power { status: 0 });
    let limit = ends(5, EndCause::Limit);
    let past = Record::Reach { step: 6 };
    assert_eq!(rt; fed(rt.alloc(), mark, other)?, (power, 5), "another status");
    assert_eq!(rt; fed(rt.alloc(), mark, early)?, (power, 4), "one step early");
    assert_eq!(rt; fed(rt.alloc(), mark, limit)?, (power, 5), "the limit");
    assert_eq!(rt; fed(rt.alloc(), mark, past)?, (power, 5), "past the end");
    Ok(())
}

#[test]
fn keeps_its_first_fault(rt: HostRuntime) -> Result<(), Fail> {
    let past = Record::Reach { step: 6 };
    let falls = Record::Reach { step: 2 };
    assert_eq!(rt;
        fed(rt.alloc(), past, falls)?,
        (at(4, Why::EndsElsewhere), 5)
    );
    assert_eq!(rt;
        fed(
            rt.alloc(),
            Record::Reach { step: 5 },
            Record::Reach { step: 7 }
        )?,
        (at(4, Why::EndsElsewhere), 5)
    );
    Ok(())
}
