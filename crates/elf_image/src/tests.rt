//! A file with a header of 172 bytes and its variants, and a flat file.
use crate::{Image, ImageFault, read};
use std::alloc::{AllocError, Global};
use std::process::Abort;
use std::test::Fail;

const RAM_KIB: u32 = 64;

fn put_half(file: &mut Vec<u8>, half: u16) -> Result<(), AllocError> {
    file.extend_from_slice(&half.to_le_bytes())
}

fn put_words(file: &mut Vec<u8>, words: &[u32]) -> Result<(), AllocError> {
    for word in words {
        file.extend_from_slice(&word.to_le_bytes())?;
    }
    Ok(())
}

// Three headers: one of another type; 20 bytes at 0x80000000, and 12 that the file does not give; 4 bytes at 0x80001000,
// and 4 more.
fn small_elf(alloc: Global) -> Result<Vec<u8>, AllocError> {
    let mut file = Vec::from_slice(alloc, &[0x7f, b'E', b'L', b'F', 1, 1, 1, 0])?;
    put_words(&mut file, &[0, 0])?;
    put_half(&mut file, 2)?;
    put_half(&mut file, 243)?;
    put_words(&mut file, &[1, 0x8000_0000, 52, 0, 0])?;
    for half in [52, 32, 3, 0, 0, 0] {
        put_half(&mut file, half)?;
    }
    put_words(&mut file, &[0x7000_0003, 0, 0, 0, 0, 0, 4, 1])?;
    put_words(&mut file, &[1, 148, 0x8000_0000, 0x8000_0000, 20, 32, 5, 4])?;
    put_words(&mut file, &[1, 168, 0x8000_1000, 0x8000_1000, 4, 8, 6, 4])?;
    put_words(
        &mut file,
        &[
            0x1000_0537,
            0x0480_0593,
            0x00b5_0023,
            0x1010_0637,
            0x0006_2023,
            0x0403_0201,
        ],
    )?;
    Ok(file)
}

fn fault_of(alloc: Global, file: &[u8]) -> Option<ImageFault> {
    match read(alloc, file, RAM_KIB) {
        Ok(_) => None,
        Err(fault) => Some(fault),
    }
}

// The small file with four bytes changed.
fn changed(alloc: Global, at: usize, word: u32) -> Result<Vec<u8>, AllocError> {
    let mut file = small_elf(alloc)?;
    for (i, byte) in word.to_le_bytes().iter().enumerate() {
        match file.get_mut(at.wrapping_add(i)) {
            Some(place) => *place = *byte,
            None => {}
        }
    }
    Ok(file)
}

fn segments_are(rt: &impl Abort, image: &Image) {
    let found = image.segments.as_slice();
    match found {
        [code, data] => {
            assert_eq!(rt;
                (code.address, code.bytes.len(), code.size, code.executable),
                (0x8000_0000, 20, 32, true)
            );
            assert_eq!(rt;
                (data.address, data.size, data.executable),
                (0x8000_1000, 8, false)
            );
            assert_eq!(rt; data.bytes.as_slice(), [1u8, 2, 3, 4].as_slice());
        }
        _ => assert!(rt; false, "two segments"),
    }
}

#[test]
fn a_file_with_a_header_gives_its_segments(rt: HostRuntime) -> Result<(), Fail> {
    let file = small_elf(rt.alloc())?;
    assert_eq!(rt; file.len(), 172);
    match read(rt.alloc(), &file, RAM_KIB) {
        Ok(image) => {
            assert_eq!(rt; image.entry, 0x8000_0000);
            segments_are(&rt, &image);
            segments_are(&rt, &image.copy(rt.alloc())?);
        }
        Err(fault) => assert!(rt; false, "{fault:?}"),
    }
    Ok(())
}

#[test]
fn the_first_fault_is_named(rt: HostRuntime) -> Result<(), Fail> {
    // The place of four bytes, what stands there, and the fault.
    let cases: [(usize, u32, Option<ImageFault>); 16] = [
        (4, 0x0001_0102, Some(ImageFault::NotThis { field: 4 })),
        (4, 0x0002_0201, Some(ImageFault::NotThis { field: 5 })),
        (4, 0x0002_0101, Some(ImageFault::NotThis { field: 6 })),
        (16, 0x00f3_0003, Some(ImageFault::NotThis { field: 16 })),
        (16, 0x00f4_0002, Some(ImageFault::NotThis { field: 18 })),
        (44, 0, Some(ImageFault::NoSegment)),
        (44, 65, Some(ImageFault::BadTable)),
        (42, 0x0003_0028, Some(ImageFault::BadTable)),
        (
            28,
            0xffff_ffff,
            Some(ImageFault::Short {
                need: 0x1_0000_005f,
            }),
        ),
        (104, 16, Some(ImageFault::SegmentShape { index: 1 })),
        (
            120,
            0xffff_ffff,
            Some(ImageFault::Short {
                need: 0x1_0000_0003,
            }),
        ),
        (
            128,
            0x8000_001c,
            Some(ImageFault::Overlap {
                first: 1,
                second: 2,
            }),
        ),
        (128, 0x8000_0020, None),
        (
            128,
            0x7fff_f000,
            Some(ImageFault::SegmentOutside { index: 2 }),
        ),
        (24, 0x8000_0002, Some(ImageFault::EntryOutside)),
        (24, 0x8001_0000, Some(ImageFault::EntryOutside)),
    ];
    for (at, word, fault) in cases {
        let file = changed(rt.alloc(), at, word)?;
        assert_eq!(rt; fault_of(rt.alloc(), &file), fault, "{word:x} at {at}");
    }
    Ok(())
}

#[test]
fn a_cut_file_is_short(rt: HostRuntime) -> Result<(), Fail> {
    let file = small_elf(rt.alloc())?;
    for length in 4..172usize {
        let need = if length < 52 {
            52
        } else if length < 148 {
            148
        } else if length < 168 {
            168
        } else {
            172
        };
        let cut = file.get(..length).unwrap_or(&[]);
        assert_eq!(rt;
            fault_of(rt.alloc(), cut),
            Some(ImageFault::Short { need }),
            "{length}"
        );
    }
    assert_eq!(rt; fault_of(rt.alloc(), &[0x7f, b'E', b'L']), None);
    Ok(())
}

#[test]
fn a_flat_file_fits_the_ram(rt: HostRuntime) -> Result<(), Fail> {
    let fits = vec![in rt.alloc(); 0u8; 65536]?;
    assert_eq!(rt; fault_of(rt.alloc(), &fits), None);
    let longer = vec![in rt.alloc(); 0u8; 65537]?;
    assert_eq!(rt;
        fault_of(rt.alloc(), &longer),
        Some(ImageFault::SegmentOutside { index: 0 })
    );
    Ok(())
}
