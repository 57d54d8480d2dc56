//! The words of the command line, and the texts that `main` answers by itself.
ghost use Rattle.std.specs.Prelude.{◌≡◌, map, string_bytes};
ghost use Rattle.std.specs.Option.{option_map};
ghost use Rattle.aftersight.specs.Texts.{text_of};

use std::alloc::{AllocError, Global};
use std::env::FillError;
use std::rt::Env;

/// The words after the program's name.
#[derive(Drop)]
pub enum HostWords {
    /// All of them are text.
    Text(Vec<String>),
    /// A word is not UTF-8 text; these stand before it.
    Broken(Vec<String>),
}

// How many bytes are asked for at first.
const WORD_BYTES: usize = 256;

/// The words that the host gives after the program's name. It fails where there is no memory.
pub fn read_words<R: Env + AllocGlobal>(rt: &R) -> Result<HostWords, AllocError> {
    let mut words = Vec::new(rt.alloc());
    for index in 1..usize::MAX {
        let Some(bytes) = word_at(rt.alloc(), rt, index)? else {
            break;
        };
        match String::from_utf8(bytes) {
            Ok(word) => words.push(word)?,
            Err(_) => return Ok(HostWords::Broken(words)),
        }
    }
    Ok(HostWords::Text(words))
}

// The bytes of a word of the host; None where it gives none at this place.
fn word_at<R: Env>(alloc: Global, rt: &R, index: usize) -> Result<Option<Vec<u8>>, AllocError> {
    let mut bytes = Vec::new(alloc);
    let mut size = WORD_BYTES;
    for _doubled in 0..usize::BITS {
        bytes.resize(size, 0u8)?;
        match rt.arg(index, bytes.as_mut_slice()) {
            Ok(length) => {
                bytes.truncate(length);
                return Ok(Some(bytes));
            }
            Err(FillError::NotPresent) => return Ok(None),
            Err(FillError::TooLong) => {}
        }
        size = size.saturating_add(size);
    }
    Err(AllocError)
}

// What `--help` shows.
const HELP: &str = "\
aftersight runs a RISC-V guest as if nobody watched, and analyses what it did.

usage: aftersight run IMAGE SCRIPT [OPTION VALUE]..

  IMAGE            the guest: an ELF file for RV32, or the bytes of its RAM
  SCRIPT           what comes to it from outside, and when; it may be empty

  --disk FILE      its disk; without it, it has none
  --mode MODE      sync holds its output back until it is approved, best does not;
                   sync without it
  --with NAMES     the analyses, parted by commas; heap,taint,calls,cover,locks
                   without it
  --require NAMES  those that have to approve, or none; those of --with without it
  --ram KIB        64 to 16384; 1024 without it
  --steps COUNT    the most steps, 1 to 1000000000; 10000000 without it
  --log COUNT      the records that the log holds at a time, a power of two from
                   16 to 65536; 1024 without it
  --threads COUNT  0 to 8, of which 0 is built; 0 without it
  --turns LETTERS  whose turn it is, again and again: a for the recorder, digits for
                   the replicas, r for the gate; a, each replica, r without it

The guest's output is written up to the first step that a required analysis refuses,
then the report. The commands record, analyze, show and load are not built.

status: 0 done, 1 a finding, 2 wrong words, 3 image or disk refused, 4 script refused,
5 files failed, 6 output failed, 8 the step limit, 9 no memory, 10 not built
";

// What `--version` shows.
const VERSION: &str = "aftersight 0.1.0\n";

/// The text that a command line asks for whose only word is `--help` or `--version`; none of each other command line.
pub fn text_of_lone(words: &[String]) -> Option<&'static str>
    ensures { option_map (λ text. text.now) result ≡ text_of (map string_bytes words.now) }
{
    let [word] = words else {
        return None;
    };
    if word.as_str() == "--help" {
        Some(HELP)
    } else if word.as_str() == "--version" {
        Some(VERSION)
    } else {
        None
    }
}
