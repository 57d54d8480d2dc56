//! Words, files and scripts that are refused, each by its line.
use crate::guests;
use crate::program::{Wanted, expect, files_of, flat, words_of};
use std::alloc::Global;
use std::process::Abort;
use std::test::Fail;

fn refused(status: u8, line: &str) -> Wanted<'_> {
    Wanted {
        status,
        text: &[],
        line,
    }
}

// Words, and the status and the line that they come to.
const WORDS: [(&str, u8, &str); 20] = [
    ("", 2, "words: missing\n"),
    ("run a", 2, "words: missing\n"),
    ("frob", 2, "words: word 1\n"),
    ("--help run", 2, "words: word 1\n"),
    ("run a b --log 17", 2, "words: word 5\n"),
    ("run a b --steps 05", 2, "words: word 5\n"),
    ("run a b --log=32", 2, "words: word 4\n"),
    ("run a b --steps 5 --steps 6", 2, "words: word 6\n"),
    ("run a b --require heap --with taint", 2, "words: word 5\n"),
    (
        "run a b --with heap,taint --turns a0r",
        2,
        "words: word 7\n",
    ),
    ("run a b --with", 2, "words: missing\n"),
    ("run a b c", 2, "words: word 4\n"),
    ("run a -b", 2, "words: word 3\n"),
    ("run a b --mode best --require heap", 2, "words: word 7\n"),
    ("run a b --threads 1 --turns a0r", 2, "words: word 7\n"),
    ("load 4294967296 1", 2, "words: word 2\n"),
    ("record a b", 2, "words: missing\n"),
    // words that are a job, of a kind that is not built
    ("record a b c", 10, "not built\n"),
    ("show a", 10, "not built\n"),
    ("run a b --threads 1", 10, "not built\n"),
];

#[test]
fn wrong_words_are_named(rt: HostRuntime) -> Result<(), Fail> {
    let alloc = rt.alloc();
    for (words, status, line) in WORDS {
        let mut files = files_of(alloc, None, None, None)?;
        let words = words_of(alloc, words)?;
        expect(&rt, alloc, &mut files, &words, refused(status, line))?;
    }
    Ok(())
}

// Calls the program on these files.
fn expect_files(
    rt: &impl Abort,
    alloc: Global,
    given: (Option<&[u8]>, Option<&[u8]>, Option<&[u8]>),
    wanted: Wanted<'_>,
) -> Result<(), Fail> {
    let (image, script, disk) = given;
    let mut files = files_of(alloc, image, script, disk)?;
    let words = words_of(alloc, "run guest.bin guest.txt --disk disk.bin --ram 64")?;
    expect(rt, alloc, &mut files, &words, wanted)?;
    Ok(())
}

#[test]
fn files_are_refused_in_their_order(rt: HostRuntime) -> Result<(), Fail> {
    let alloc = rt.alloc();
    let flat = flat(alloc, &guests::HELLO)?;
    let good: Option<&[u8]> = Some(&flat);
    let outside = vec![in alloc; 0u8; 65_537]?;
    let short: [u8; 5] = [0x7f, b'E', b'L', b'F', 1];
    let empty: Option<&[u8]> = Some(&[]);
    let bad: Option<&[u8]> = Some(b"?");
    let rows: [(Option<&[u8]>, Option<&[u8]>, Option<&[u8]>, u8, &str); 9] = [
        (None, empty, empty, 5, "files: failed\n"),
        (good, None, empty, 5, "files: failed\n"),
        (good, empty, None, 5, "files: failed\n"),
        (Some(&short), bad, None, 5, "files: failed\n"),
        (Some(&short), None, empty, 5, "files: failed\n"),
        (Some(&short), bad, empty, 3, "image: short need 52\n"),
        (Some(&outside), bad, empty, 3, "image: segment 0 outside\n"),
        (good, bad, empty, 4, "script: line 1 bad\n"),
        (good, bad, None, 5, "files: failed\n"),
    ];
    for (image, script, disk, status, line) in rows {
        expect_files(&rt, alloc, (image, script, disk), refused(status, line))?;
    }
    Ok(())
}

// A file of so many line feeds.
fn long_file(alloc: Global, length: usize) -> Result<Vec<u8>, Fail> {
    Ok(vec![in alloc; 10u8; length]?)
}

#[test]
fn files_that_are_too_long_are_refused(rt: HostRuntime) -> Result<(), Fail> {
    let alloc = rt.alloc();
    let flat = flat(alloc, &guests::HELLO)?;
    let image = long_file(alloc, 33_554_433)?;
    let script = long_file(alloc, 1_048_577)?;
    let disk = long_file(alloc, 16_777_217)?;
    let bad: Option<&[u8]> = Some(b"?");
    let rows: [(Option<&[u8]>, Option<&[u8]>, Option<&[u8]>, u8, &str); 3] = [
        (Some(&image), None, bad, 3, "image: too long\n"),
        (Some(&flat), Some(&script), None, 4, "script: too long\n"),
        (Some(&flat), bad, Some(&disk), 3, "disk: too long\n"),
    ];
    for (image, script, disk, status, line) in rows {
        expect_files(&rt, alloc, (image, script, disk), refused(status, line))?;
    }
    Ok(())
}

// Scripts, and the lines that they come to.
const SCRIPTS: [(&str, &str); 5] = [
    ("at 5 tick 1\nat 4 tick 1\n", "script: line 2 falling\n"),
    ("at 05 tick 1\n", "script: line 1 number\n"),
    ("clock 0\n", "script: line 1 number\n"),
    ("at 5 serial 6\n", "script: line 1 bad\n"),
    ("at 5 serial 6A\n", "script: line 1 bad\n"),
];

#[test]
fn broken_scripts_are_named_by_their_line(rt: HostRuntime) -> Result<(), Fail> {
    let alloc = rt.alloc();
    let image = flat(alloc, &guests::HELLO)?;
    for (script, line) in SCRIPTS {
        let script: Option<&[u8]> = Some(script.as_bytes());
        expect_files(
            &rt,
            alloc,
            (Some(&image), script, Some(&[])),
            refused(4, line),
        )?;
    }
    Ok(())
}

#[test]
fn a_script_has_at_most_256_spans(rt: HostRuntime) -> Result<(), Fail> {
    let alloc = rt.alloc();
    let image = flat(alloc, &guests::HELLO)?;
    let mut script = String::new(alloc);
    for _line in 0..257u32 {
        script.push_str("sectors 0 0\n")?;
    }
    let given: (Option<&[u8]>, Option<&[u8]>, Option<&[u8]>) = (
        Some(&image),
        Some(script.as_bytes()),
        Some(&[]),
    );
    expect_files(&rt, alloc, given, refused(4, "script: line 257 too many\n"))
}
