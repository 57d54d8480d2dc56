//! Sinks that fail.
use crate::program::{expect_records, files_of, flat, sink_of, words_of};
use crate::{guests, texts};
use after_cli::aftersight_plain;
use std::test::Fail;

#[test]
fn a_failed_put_ends_the_output(rt: HostRuntime) -> Result<(), Fail> {
    let alloc = rt.alloc();
    // The turns, the put that fails, after how many bytes, what was written, and how many records were appended.
    let rows = [
        ("a0r", 1, 0, "", 1u64),
        ("aa0r", 1, 0, "", 2),
        ("a0r", 2, 0, "H", 2),
        ("a0r", 2, 1, "H\n", 2),
        ("a0r", 3, 5, "H\n== af", 2),
        ("a0r", 9, 2, texts::HELLO_CUT, 2),
    ];
    let image = flat(alloc, &guests::HELLO)?;
    for (turns, put, after, text, records) in rows {
        let line = format!(in alloc; "run guest.bin guest.txt --with cover --turns {turns}")?;
        let words = words_of(alloc, &line)?;
        let mut files = files_of(alloc, Some(&image), Some(&[]), None)?;
        let mut out = sink_of(alloc, vec![in alloc; (put, after)]?)?;
        let mut err = sink_of(alloc, Vec::new(alloc))?;
        let outcome = aftersight_plain(alloc, &words, &mut files, &mut out, &mut err);
        let line = "output failed\n";
        assert_eq!(rt; outcome.status, 6, "put {put} fails after {after}");
        assert!(rt;
            out.bytes() == text.as_bytes(),
            "put {put} fails after {after}"
        );
        assert!(rt;
            err.bytes() == line.as_bytes(),
            "put {put} fails after {after}"
        );
        expect_records(&rt, &outcome, records, text);
    }
    Ok(())
}

#[test]
fn a_failing_error_sink_changes_nothing(rt: HostRuntime) -> Result<(), Fail> {
    let alloc = rt.alloc();
    let words = words_of(alloc, "run guest.bin guest.txt --with cover")?;
    let mut files = files_of(alloc, None, None, None)?;
    let mut out = sink_of(alloc, Vec::new(alloc))?;
    let mut err = sink_of(alloc, vec![in alloc; (1, 7)]?)?;
    let outcome = aftersight_plain(alloc, &words, &mut files, &mut out, &mut err);
    assert_eq!(rt; outcome.status, 5);
    assert!(rt; out.bytes() == "".as_bytes());
    assert!(rt; err.bytes() == "files: ".as_bytes());
    Ok(())
}
