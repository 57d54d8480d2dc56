//! Words of every command, and what is wrong with others.
use crate::{Command, WordsFault, first_bad_before, read_words};
use run_events::Kind;
use run_settings::Letter;
use std::alloc::{AllocError, Global};
use std::test::Fail;

// The words of a text. An underscore stands for the empty word.
fn words_of(alloc: Global, text: &str) -> Result<Vec<String>, AllocError> {
    let mut words = Vec::new(alloc);
    for word in text.split_whitespace() {
        let word = if word == "_" { "" } else { word };
        words.push(String::from_str(alloc, word)?)?;
    }
    Ok(words)
}

fn fault_of(alloc: Global, text: &str) -> Result<Option<WordsFault>, AllocError> {
    let words = words_of(alloc, text)?;
    match read_words(&words) {
        Ok(_) => Ok(None),
        Err(fault) => Ok(Some(fault)),
    }
}

// A row: the number of its first bad word, and its words.
fn row_of(line: &str) -> Option<(u32, &str)> {
    let (number, text) = line.split_once(' ')?;
    match number.parse() {
        Ok(number) => Some((number, text)),
        Err(_) => None,
    }
}

// The number of the first bad word, and the words: one bad word; two of them, or a bad one before something that is
// missing; words that do not go together.
const BAD: &str = "\
1 frob
1 --with cover run a b
1 _ run a b
5 run a b --log 17
5 run a b --log 8
5 run a b --log 131072
5 run a b --log 016
5 run a b --steps 05
5 run a b --steps 0
5 run a b --steps 1000000001
5 run a b --steps +5
5 run a b --steps 99999999999999999999
5 run a b --ram 63
5 run a b --ram 16385
5 run a b --threads 9
5 run a b --threads -1
4 run a b --log=32
4 run a b --frob
4 run a b --
6 run a b --steps 5 --steps 6
6 run a b --steps 5 --steps
5 run a b --steps --steps
3 run --disk --with a b
5 run a b --disk _
5 run a b --disk -d
5 run a b --mode slow
5 run a b --with none
5 run a b --with heap,heap
5 run a b --with heap,
5 run a b --with ,heap
5 run a b --with heap,,taint
5 run a b --with Heap
5 run a b --require none,heap
5 run a b --turns a01234rx
5 run a b --turns a01234raaaaaaaaaaaaaaaaaaaaaaaaaaaaaaaaaaaaaaaaaaaaaaaaaaaaaaaaaaa
4 run a b c
3 run a _ b
3 run a -b
3 run a -
5 record a b c --log 16
5 record a b c d
4 analyze a b --ram 64
3 show a --with heap
3 show a b
4 load 1 2 --steps 5
2 load 4294967296 5
3 load 1 0
3 load 1 100001
2 load x 5
5 run a b --log 17 --steps 05
5 run a b --steps 05 --log 17
3 run --steps 05 a b c
4 run a --log 17
9 run a b --require heap --with taint --steps 05
5 run a b --require heap --with taint
7 run a b --mode best --require none
5 run a b --require heap --mode best
7 run a b --with heap,taint --turns a0r
7 run a b --with heap --turns a01r
5 run a b --turns 01234r
5 run a b --turns a01234 --threads 1
7 run a b --turns r --require heap --with taint
";

#[test]
fn the_first_bad_word_is_named(rt: HostRuntime) -> Result<(), Fail> {
    for line in BAD.lines() {
        let Some((number, text)) = row_of(line) else {
            assert!(rt; false, "no row: {line}");
            return Ok(());
        };
        assert_eq!(rt;
            fault_of(rt.alloc(), text)?,
            Some(WordsFault::Word { number }),
            "at {text}"
        );
    }
    Ok(())
}

// The first line has no words.
const MISSING: &str = "
run
run a
run a b --log
run a --log
record a b
analyze a --with heap
show
load 5
";

#[test]
fn what_is_missing_is_told(rt: HostRuntime) -> Result<(), Fail> {
    for text in MISSING.lines() {
        assert_eq!(rt;
            fault_of(rt.alloc(), text)?,
            Some(WordsFault::Missing),
            "at {text}"
        );
    }
    Ok(())
}

const TAKEN: &str = "\
run a b
run --log 16 a --steps 1 b --ram 64 --disk d
run a b --mode sync --require none
run a b --mode best
run a b --with locks,cover,calls,taint,heap --require heap
run a b --threads 8 --log 65536 --ram 16384 --steps 1000000000
run a b --threads 0 --turns aaaa0r1234
run a b --turns a01234raaaaaaaaaaaaaaaaaaaaaaaaaaaaaaaaaaaaaaaaaaaaaaaaaaaaaaaaa
record a b c --disk d --ram 64 --steps 5
analyze a b --with locks
show show
load 0 1 --threads 0
load 4294967295 100000 --log 32
";

#[test]
fn words_of_each_command_are_taken(rt: HostRuntime) -> Result<(), Fail> {
    for text in TAKEN.lines() {
        assert_eq!(rt; fault_of(rt.alloc(), text)?, None, "at {text}");
    }
    Ok(())
}

#[test]
fn a_run_has_what_its_words_say(rt: HostRuntime) -> Result<(), Fail> {
    let text = "run --turns 1ar0 a --with taint,heap b --require heap --steps 5";
    let words = words_of(rt.alloc(), text)?;
    let Ok(Command::Run(run)) = read_words(&words) else {
        assert!(rt; false, "no run");
        return Ok(());
    };
    assert_eq!(rt; run.image, "a");
    assert_eq!(rt; run.script, "b");
    assert!(rt; run.disk.is_none());
    assert_eq!(rt; run.ram_kib, 1024);
    assert_eq!(rt; run.limit, 5);
    assert_eq!(rt; run.log, 1024);
    assert_eq!(rt; run.kinds.len(), 2);
    assert!(rt; run.required.contains(Kind::Heap));
    assert_eq!(rt; run.required.len(), 1);
    assert_eq!(rt; run.threads, 0);
    let turns = [
        Letter::Read(1),
        Letter::Record,
        Letter::Release,
        Letter::Read(0),
    ];
    assert_eq!(rt; run.turns.letters(), turns.as_slice());
    Ok(())
}

#[test]
fn bad_words_are_found_before_others(rt: HostRuntime) -> Result<(), Fail> {
    let cases: [(&str, Option<u32>); 7] = [
        ("", None),
        ("frob", Some(1)),
        ("run a", None),
        ("run a b --log", None),
        ("run a --log 17", Some(4)),
        ("run a b c", Some(4)),
        ("run a b --require heap --with taint", None),
    ];
    for (text, number) in cases {
        let words = words_of(rt.alloc(), text)?;
        assert_eq!(rt; first_bad_before(&words), number, "at {text}");
    }
    Ok(())
}
