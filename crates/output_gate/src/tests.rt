//! What a gate puts, keeps and counts.
use crate::{GateFull, OutputGate, SinkFault};
use after_edge::MemorySink;
use std::io;

#[test]
fn a_gate_holds_4096_bytes(rt: HostRuntime) -> io::Result<()> {
    let mut gate = OutputGate::new(rt.alloc())?;
    for step in 0..4096u32 {
        assert_eq!(rt; gate.issue(step, 7), Ok(()), "at {step}");
    }
    assert_eq!(rt; gate.issue(4096, 7), Err(GateFull));
    assert_eq!(rt; gate.waiting(), 4096);
    assert_eq!(rt; gate.issued(), 4096);
    assert_eq!(rt; gate.released(), 0);
    Ok(())
}

// In each case a new gate with bytes at the steps 4 and 6. Where none is to go out, the sink fails at its first put.
#[test]
fn release_puts_what_is_below(rt: HostRuntime) -> io::Result<()> {
    for (below, count, put, first) in [
        (4, 0, "", 1),
        (5, 1, "a", 2),
        (6, 1, "a", 2),
        (7, 2, "ab", 2),
    ] {
        let fails = vec![in rt.alloc(); (first, 0)]?;
        let mut out = MemorySink::new(rt.alloc(), 8, fails)?;
        let mut gate = OutputGate::new(rt.alloc())?;
        assert_eq!(rt; gate.issue(4, b'a'), Ok(()));
        assert_eq!(rt; gate.issue(6, b'b'), Ok(()));
        assert_eq!(rt; gate.release(below, &mut out), Ok(count), "below {below}");
        assert_eq!(rt; out.bytes(), put.as_bytes(), "below {below}");
        assert_eq!(rt; gate.waiting(), 2 - count, "below {below}");
    }
    Ok(())
}

#[test]
fn withhold_drops_the_named_step(rt: HostRuntime) -> io::Result<()> {
    let mut out = MemorySink::new(rt.alloc(), 8, Vec::new(rt.alloc()))?;
    let mut gate = OutputGate::new(rt.alloc())?;
    assert_eq!(rt; gate.issue(4, b'a'), Ok(()));
    assert_eq!(rt; gate.issue(6, b'b'), Ok(()));
    assert_eq!(rt; gate.issue(7, b'c'), Ok(()));
    gate.withhold(6);
    assert_eq!(rt; gate.waiting(), 1);
    assert_eq!(rt; gate.issue(9, b'd'), Ok(()));
    assert_eq!(rt; gate.waiting(), 1);
    assert_eq!(rt; gate.issued(), 4);
    assert_eq!(rt; gate.release(10, &mut out), Ok(1));
    assert_eq!(rt; out.bytes(), "a".as_bytes());
    assert_eq!(rt; gate.passed(), 5);
    Ok(())
}

// The second put fails after one byte.
#[test]
fn a_failed_put_releases_nothing(rt: HostRuntime) -> io::Result<()> {
    let fails = vec![in rt.alloc(); (2, 1)]?;
    let mut out = MemorySink::new(rt.alloc(), 8, fails)?;
    let mut gate = OutputGate::new(rt.alloc())?;
    assert_eq!(rt; gate.issue(4, b'a'), Ok(()));
    assert_eq!(rt; gate.issue(6, b'b'), Ok(()));
    assert_eq!(rt; gate.issue(7, b'c'), Ok(()));
    assert_eq!(rt; gate.release(5, &mut out), Ok(1));
    assert_eq!(rt; gate.release(8, &mut out), Err(SinkFault));
    assert_eq!(rt; out.bytes(), "ab".as_bytes());
    assert_eq!(rt; gate.released(), 1);
    assert_eq!(rt; gate.waiting(), 2);
    assert_eq!(rt; gate.passed(), 8);
    assert!(rt; gate.failed());
    Ok(())
}
