//! A line with a part of each kind.
use crate::Line;

#[test]
fn writes_each_part(rt: HostRuntime) {
    let line = Line::new()
        .text("step ")
        .number(18446744073709551615)
        .text(" pc ")
        .hexadecimal(0x8000_0A1C)
        .with_line_feed();
    let wanted = "step 18446744073709551615 pc 80000a1c\n";
    assert_eq!(rt; line.as_bytes(), wanted.as_bytes());
}
