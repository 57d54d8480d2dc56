//! What fakes hold, and when they fail.
use crate::{
    Failed, FileFault, Files, MemoryFiles, MemorySink, ReadFault, Sink, StdFiles, StdSink, read_all,
};
use memory_map::NoMemory;
use std::alloc::{AllocError, Global};
use std::process::Abort;
use std::test::Fail;
use std::{fs, rt};

// Puts the piece, which must have this answer, and leave the sink with these bytes.
fn put(
    rt: &impl Abort,
    sink: &mut MemorySink,
    piece: &str,
    answer: Result<(), Failed>,
    held: &str,
) {
    let answered = sink.put(piece.as_bytes());
    assert_eq!(rt;
        (answered, sink.bytes()),
        (answer, held.as_bytes()),
        "at {piece}"
    );
}

// Six bytes at most; the second put fails after one byte.
#[test]
fn a_sink_takes_what_fits(rt: HostRuntime) -> Result<(), Fail> {
    let fails = vec![in rt.alloc(); (2, 1)]?;
    let mut sink = MemorySink::new(rt.alloc(), 6, fails)?;
    put(&rt, &mut sink, "ab", Ok(()), "ab");
    put(&rt, &mut sink, "cd", Err(Failed), "abc");
    put(&rt, &mut sink, "de", Ok(()), "abcde");
    put(&rt, &mut sink, "fg", Err(Failed), "abcdef");
    put(&rt, &mut sink, "", Ok(()), "abcdef");
    Ok(())
}

// The name `log` takes four bytes.
fn make_room(files: &mut MemoryFiles) -> Result<(), NoMemory> {
    files.room("log", 4)?;
    files.room("log", 3)
}

// Appends the piece to `log`, which must have this answer, and leave the file with these bytes.
fn append(
    rt: &impl Abort,
    files: &mut MemoryFiles,
    piece: &str,
    answer: Result<(), Failed>,
    held: &[u8],
) {
    let answered = files.append("log", piece.as_bytes());
    assert_eq!(rt;
        (answered, files.get("log")),
        (answer, Some(held)),
        "at {piece}"
    );
}

fn read(
    rt: &impl Abort,
    files: &mut MemoryFiles,
    name: &str,
    at: u64,
    answer: Result<usize, ReadFault>,
) {
    let mut buf = [0u8; 3];
    assert_eq!(rt; files.read(name, at, &mut buf), answer, "{name} at {at}");
}

// The third call of the trait fails.
#[test]
fn files_fail_where_they_are_told(rt: HostRuntime) -> Result<(), Fail> {
    let fails = vec![in rt.alloc(); 3]?;
    let mut files = MemoryFiles::new(rt.alloc(), fails)?;
    make_room(&mut files)?;
    assert_eq!(rt; files.begin("other"), Err(Failed));
    append(&rt, &mut files, "abc", Ok(()), b"abc");
    append(&rt, &mut files, "d", Err(Failed), b"abc");
    append(&rt, &mut files, "de", Err(Failed), b"abcd");
    append(&rt, &mut files, "", Ok(()), b"abcd");
    read(&rt, &mut files, "log", 2, Ok(2));
    read(&rt, &mut files, "log", 4, Ok(0));
    read(&rt, &mut files, "other", 0, Err(ReadFault::Absent));
    Ok(())
}

fn bytes_of(alloc: Global, count: usize) -> Result<Vec<u8>, AllocError> {
    let mut bytes = Vec::new(alloc);
    for index in 0..count {
        bytes.push((index % 251) as u8)?;
    }
    Ok(bytes)
}

// A file of these bytes, read by a caller that takes at most `max`.
fn read_file(
    alloc: Global,
    bytes: &[u8],
    max: usize,
) -> Result<Result<Vec<u8>, FileFault>, NoMemory> {
    let mut files = MemoryFiles::new(alloc, Vec::new(alloc))?;
    files.set("f", bytes)?;
    Ok(read_all(alloc, &mut files, "f", max))
}

#[test]
fn a_file_is_read_whole_or_not_at_all(rt: HostRuntime) -> Result<(), Fail> {
    for (count, max) in [
        (0, 0),
        (5, 5),
        (6, 5),
        (4096, 4096),
        (9000, 9000),
        (9000, 8999),
    ] {
        let bytes = bytes_of(rt.alloc(), count)?;
        let read = read_file(rt.alloc(), &bytes, max)?;
        let wanted = if count <= max {
            Ok(bytes)
        } else {
            Err(FileFault::TooLong { max })
        };
        assert_eq!(rt; read, wanted, "{count} bytes, at most {max}");
    }
    Ok(())
}

#[test]
fn the_host_tells_what_is_absent(rt: HostRuntime) {
    let mut files = StdFiles::new(&rt);
    for (name, fault) in [
        ("no_such_file", ReadFault::Absent),
        (".", ReadFault::Failed),
    ] {
        let mut buf = [0u8; 9];
        assert_eq!(rt; files.read(name, 0, &mut buf), Err(fault), "{name}");
    }
}

fn write_pieces(rt: &impl rt::Files, name: &str) -> Result<(), Failed> {
    let mut files = StdFiles::new(rt);
    files.begin(name)?;
    files.append(name, b"abc")?;
    files.append(name, b"de")
}

#[test]
fn the_host_is_adapted(rt: HostRuntime) -> Result<(), Fail> {
    let name = "after_edge_test.tmp";
    assert_eq!(rt; write_pieces(&rt, name), Ok(()));
    let read = read_all(rt.alloc(), &mut StdFiles::new(&rt), name, 5);
    assert!(rt; fs::remove_file(&rt, name).is_ok());
    let bytes = vec![in rt.alloc(); b'a', b'b', b'c', b'd', b'e']?;
    assert_eq!(rt; read, Ok(bytes));
    Ok(())
}

#[test]
fn the_hosts_sink_takes_bytes(rt: HostRuntime) {
    let mut sink = StdSink::new(Vec::new(rt.alloc()));
    assert_eq!(rt; sink.put(b"abc"), Ok(()));
}
