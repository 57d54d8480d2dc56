//! Ranges at the ends of RAM, over and beside each other.
use crate::Shadow;
use std::test::Fail;

#[test]
fn clips_paints_and_searches(rt: HostRuntime) -> Result<(), Fail> {
    let mut shadow = Shadow::new(rt.alloc(), 64)?;
    shadow.paint(0, 0x8000_0002, 1);
    shadow.paint(0x8000_FFFF, 0x1_0000_0000, 2);
    shadow.paint(0x8000_0010, 0x8000_0020, 4);
    shadow.paint(0x8000_0018, 0x8000_0018, 9);
    shadow.paint(0x8000_001C, 0x8000_0010, 9);
    let values: [(u32, u8); 9] = [
        (0, 0),
        (0x7FFF_FFFF, 0),
        (0x8000_0000, 1),
        (0x8000_0002, 0),
        (0x8000_0010, 4),
        (0x8000_001F, 4),
        (0x8000_0020, 0),
        (0x8000_FFFF, 2),
        (0x8001_0000, 0),
    ];
    for (address, value) in values {
        assert_eq!(rt; shadow.get(address), value, "{address:x}");
    }
    let searches: [(u64, u64, u8, Option<u32>); 6] = [
        (0, u64::MAX, 1, Some(0x8000_0000)),
        (0, u64::MAX, 2, Some(0x8000_FFFF)),
        (0x8000_0001, u64::MAX, 6, Some(0x8000_0010)),
        (0x8000_0002, 0x8000_0010, 7, None),
        (0, u64::MAX, 8, None),
        (0x8000_0020, 0x8000_0010, 4, None),
    ];
    for (from, to, set, least) in searches {
        assert_eq!(rt; shadow.first_of(from, to, set), least, "{from:x}");
    }
    Ok(())
}
