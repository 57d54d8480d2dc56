//! Two readers of a small log, and a verdict.
ghost use Rattle.std.specs.Prelude.{◌≡◌, length, IfOk};

use crate::{Full, Hub, Take, Verdict};
use memory_map::NoMemory;
use run_events::Record;
use std::alloc::Global;
use std::io;
use std::process::Abort;

// A log of sixteen places, full of the records 0 to 15, with two readers.
fn full_log(rt: &impl Abort, alloc: Global) -> Result<Hub, NoMemory>
    ensures { IfOk result (λ hub. length hub.taken ≡ 2) }
{
    let mut hub = Hub::new(alloc, 16, 2)?;
    for step in 0..16u32 {
        assert!(rt; !hub.is_closed() && hub.appended() <= 16);
        assert_eq!(rt; hub.append(Record::Reach { step }), Ok(()), "at {step}");
    }
    Ok(hub)
}

fn behind(reader: u32) -> Result<(), Full> {
    Err(Full { reader, taken: 0 })
}

#[test]
fn a_log_is_full_for_its_last_reader(rt: HostRuntime) -> io::Result<()> {
    let mut hub = full_log(&rt, rt.alloc())?;
    let last = Record::Reach { step: 16 };
    let first = Take::Got(Record::Reach { step: 0 });
    assert!(rt; !hub.is_closed() && hub.appended() <= 16);
    assert_eq!(rt; hub.append(last), behind(0), "both are behind");
    assert_eq!(rt; hub.take(0), first, "the first goes on");
    assert_eq!(rt; hub.append(last), behind(1), "one is behind");
    assert_eq!(rt; hub.take(1), first, "the other goes on");
    assert_eq!(rt; hub.append(last), Ok(()), "there is room again");
    assert_eq!(rt; hub.appended(), 17);
    Ok(())
}

#[test]
fn a_reader_takes_each_record_to_the_close(rt: HostRuntime) -> io::Result<()> {
    let mut hub = full_log(&rt, rt.alloc())?;
    for step in 0..16u32 {
        assert_eq!(rt; hub.take(1), Take::Got(Record::Reach { step }), "at {step}");
    }
    assert_eq!(rt; hub.take(1), Take::Empty { head: 16 }, "it has all");
    assert!(rt; !hub.is_closed());
    hub.close();
    assert_eq!(rt; hub.take(1), Take::Closed, "at the end");
    assert_eq!(rt; hub.take(1), Take::Closed, "after the end");
    assert_eq!(rt; hub.taken(1), 16);
    assert_eq!(rt; hub.taken(0), 0);
    assert!(rt; hub.is_closed());
    Ok(())
}

#[test]
fn a_verdict_stands_until_the_next(rt: HostRuntime) -> io::Result<()> {
    let mut hub = Hub::new(rt.alloc(), 16, 2)?;
    let before = Verdict {
        approved: 0,
        refused: false,
    };
    let after = Verdict {
        approved: 3,
        refused: true,
    };
    assert_eq!(rt; hub.look(1), before);
    hub.post(1, after);
    assert_eq!(rt; hub.look(1), after);
    assert_eq!(rt; hub.look(0), before);
    Ok(())
}
