//! Images with a header.
use crate::program::{Wanted, expect, files_of, words_of};
use crate::{guests, texts};
use std::alloc::Global;
use std::process::Abort;
use std::test::Fail;

fn put_half(file: &mut Vec<u8>, half: u16) -> Result<(), Fail> {
    file.extend_from_slice(&half.to_le_bytes())?;
    Ok(())
}

fn put_words(file: &mut Vec<u8>, words: &[u32]) -> Result<(), Fail> {
    for word in words {
        file.extend_from_slice(&word.to_le_bytes())?;
    }
    Ok(())
}

// The header of a file with so many program headers, which come next.
fn put_header(file: &mut Vec<u8>, count: u16) -> Result<(), Fail> {
    file.extend_from_slice(&[0x7f, b'E', b'L', b'F', 1, 1, 1, 0])?;
    put_words(file, &[0, 0])?;
    put_half(file, 2)?;
    put_half(file, 243)?;
    put_words(file, &[1, 0x8000_0000, 52, 0, 0])?;
    for half in [52, 32, count, 0, 0, 0] {
        put_half(file, half)?;
    }
    Ok(())
}

// Three program headers: one of another type; the guest and 12 bytes more; 4 bytes at 80001000, and 4 more.
fn three_headers(alloc: Global) -> Result<Vec<u8>, Fail> {
    let mut file = Vec::new(alloc);
    put_header(&mut file, 3)?;
    put_words(&mut file, &[0x7000_0003, 0, 0, 0, 0, 0, 4, 1])?;
    put_words(&mut file, &[1, 148, 0x8000_0000, 0x8000_0000, 20, 32, 5, 4])?;
    put_words(&mut file, &[1, 168, 0x8000_1000, 0x8000_1000, 4, 8, 6, 4])?;
    put_words(&mut file, &guests::HELLO)?;
    put_words(&mut file, &[0x0403_0201])?;
    Ok(file)
}

// One program header, whose segment may be read, written and executed.
fn one_header(alloc: Global, guest: &[u32; 18]) -> Result<Vec<u8>, Fail> {
    let mut file = Vec::new(alloc);
    put_header(&mut file, 1)?;
    put_words(&mut file, &[1, 84, 0x8000_0000, 0x8000_0000, 72, 72, 7, 4])?;
    put_words(&mut file, guest)?;
    Ok(file)
}

// The file with three headers with four bytes changed.
fn changed(alloc: Global, at: usize, word: u32) -> Result<Vec<u8>, Fail> {
    let mut file = three_headers(alloc)?;
    for (i, byte) in word.to_le_bytes().iter().enumerate() {
        match file.get_mut(at.wrapping_add(i)) {
            Some(place) => *place = *byte,
            None => {}
        }
    }
    Ok(file)
}

fn expect_image(
    rt: &impl Abort,
    alloc: Global,
    image: &[u8],
    script: &str,
    options: &str,
    wanted: Wanted<'_>,
) -> Result<(), Fail> {
    let mut files = files_of(alloc, Some(image), Some(script.as_bytes()), None)?;
    let words = words_of(alloc, options)?;
    expect(rt, alloc, &mut files, &words, wanted)?;
    Ok(())
}

#[test]
fn files_with_a_header_run_as_flat_ones_do(rt: HostRuntime) -> Result<(), Fail> {
    let alloc = rt.alloc();
    let hello = three_headers(alloc)?;
    let echo = one_header(alloc, &guests::ECHO)?;
    let cover = "run guest.bin guest.txt --with cover";
    let all = "run guest.bin guest.txt";
    let rows = [
        (&hello, "", cover, texts::HELLO),
        (&echo, "at 20 line hi\n", all, texts::ECHO),
    ];
    for (image, script, options, text) in rows {
        let wanted = Wanted {
            status: 0,
            text: text.as_bytes(),
            line: "",
        };
        expect_image(&rt, alloc, image, script, options, wanted)?;
    }
    Ok(())
}

// The place of four bytes, what stands there, and the line.
const CHANGES: [(usize, u32, &str); 7] = [
    (4, 0x0001_0102, "image: not this field 4\n"),
    (128, 0x8000_001c, "image: segments 1 2 overlap\n"),
    (128, 0x7fff_f000, "image: segment 2 outside\n"),
    (24, 0x8000_0002, "image: entry outside\n"),
    (44, 0, "image: no segment\n"),
    (42, 0x0003_0028, "image: bad table\n"),
    (104, 16, "image: segment 1 shape\n"),
];

#[test]
fn a_broken_header_is_named_by_its_first_fault(rt: HostRuntime) -> Result<(), Fail> {
    let alloc = rt.alloc();
    for (at, word, line) in CHANGES {
        let image = changed(alloc, at, word)?;
        let wanted = Wanted {
            status: 3,
            text: &[],
            line,
        };
        let cover = "run guest.bin guest.txt --with cover";
        expect_image(&rt, alloc, &image, "", cover, wanted)?;
    }
    Ok(())
}

#[test]
fn a_file_that_is_cut_short_is_refused(rt: HostRuntime) -> Result<(), Fail> {
    let alloc = rt.alloc();
    let mut image = three_headers(alloc)?;
    assert_eq!(rt; image.len(), 172);
    image.truncate(171);
    let cover = "run guest.bin guest.txt --with cover";
    let wanted = Wanted {
        status: 3,
        text: &[],
        line: "image: short need 172\n",
    };
    expect_image(&rt, alloc, &image, "", cover, wanted)
}
