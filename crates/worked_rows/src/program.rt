//! The program over files and sinks in memory.
use after_cli::{Outcome, aftersight_plain};
use after_edge::{MemoryFiles, MemorySink};
use guard_run::Closing;
use std::alloc::Global;
use std::process::Abort;
use std::test::Fail;

/// The file of an image of these words, without a header.
pub fn flat(alloc: Global, words: &[u32]) -> Result<Vec<u8>, Fail> {
    let mut file = Vec::new(alloc);
    for word in words {
        file.extend_from_slice(&word.to_le_bytes())?;
    }
    Ok(file)
}

/// The files `guest.bin`, `guest.txt` and `disk.bin`, as far as they are there.
pub fn files_of(
    alloc: Global,
    image: Option<&[u8]>,
    script: Option<&[u8]>,
    disk: Option<&[u8]>,
) -> Result<MemoryFiles, Fail> {
    let mut files = MemoryFiles::new(alloc, Vec::new(alloc))?;
    if let Some(bytes) = image {
        files.set("guest.bin", bytes)?;
    }
    if let Some(bytes) = script {
        files.set("guest.txt", bytes)?;
    }
    if let Some(bytes) = disk {
        files.set("disk.bin", bytes)?;
    }
    Ok(files)
}

/// Words that are parted by spaces in one line.
pub fn words_of(alloc: Global, line: &str) -> Result<Vec<String>, Fail> {
    let mut words = Vec::new(alloc);
    for word in line.split_whitespace() {
        words.push(String::from_str(alloc, word)?)?;
    }
    Ok(words)
}

/// A sink that fails at these puts, each after so many bytes.
pub fn sink_of(alloc: Global, fails: Vec<(u64, usize)>) -> Result<MemorySink, Fail> {
    Ok(MemorySink::new(alloc, 8192, fails)?)
}

/// What a call of the program is to come to.
#[derive(Clone, Copy)]
pub struct Wanted<'a> {
    pub status: u8,
    pub text: &'a [u8],
    pub line: &'a str,
}

/// Calls the program on these words, and compares what it writes and answers. It hands out what is left.
pub fn expect(
    rt: &impl Abort,
    alloc: Global,
    files: &mut MemoryFiles,
    words: &[String],
    wanted: Wanted<'_>,
) -> Result<Outcome, Fail> {
    let mut out = sink_of(alloc, Vec::new(alloc))?;
    let mut err = sink_of(alloc, Vec::new(alloc))?;
    let outcome = aftersight_plain(alloc, words, files, &mut out, &mut err);
    assert_eq!(rt; outcome.status, wanted.status, "the status of {words:?}");
    assert!(rt; out.bytes() == wanted.text, "the text of {words:?}");
    assert!(rt;
        err.bytes() == wanted.line.as_bytes(),
        "the line of {words:?}"
    );
    assert_eq!(rt;
        outcome.closing.is_some(),
        wanted.line.is_empty(),
        "the closing of {words:?}"
    );
    Ok(outcome)
}

/// Compares how many records were appended and taken by each replica.
pub fn expect_records(rt: &impl Abort, outcome: &Outcome, records: u64, title: &str) {
    match &outcome.closing {
        Some(closing) => expect_taken(rt, closing, records, title),
        None => panic!(rt; "{title}: no closing"),
    }
}

fn expect_taken(rt: &impl Abort, closing: &Closing, records: u64, title: &str) {
    assert_eq!(rt; closing.appended(), records, "{title}");
    for replica in 0..closing.replicas() {
        assert_eq!(rt;
            closing.taken(replica),
            records,
            "{title}: replica {replica}"
        );
    }
}
