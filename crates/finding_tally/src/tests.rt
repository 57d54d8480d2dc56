//! More findings than are kept.
use crate::Tally;
use run_events::{Finding, FindingKind};

fn finding_at(step: u32) -> Finding {
    Finding {
        step,
        pc: 0x8000_0000,
        kind: FindingKind::Outside,
        address: 0x8000_0000,
    }
}

#[test]
fn keeps_the_first_sixty_four(rt: HostRuntime) {
    let mut tally = Tally::new();
    assert_eq!(rt; tally.first(), None);
    assert!(rt; tally.kept().is_empty());
    for step in 7..77u32 {
        tally.add(finding_at(step));
    }
    assert_eq!(rt; tally.first(), Some(7));
    assert_eq!(rt; tally.count(), 70);
    assert_eq!(rt; tally.kept().len(), 64);
    assert_eq!(rt; tally.kept().last().map(|finding| finding.step), Some(70));
}
