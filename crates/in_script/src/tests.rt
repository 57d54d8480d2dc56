//! Scripts, what is wrong with others, and their canonical text.
ghost use Rattle.std.specs.Prelude.{IfOk};
ghost use Rattle.format_model.specs.Script.{IsScript};

use crate::{Script, ScriptFault, parse, print};
use std::alloc::{AllocError, Global};
use std::test::Fail;

fn read(alloc: Global, text: &[u8]) -> Result<Script, ScriptFault>
    ensures { IfOk result (λ s. IsScript text.now s) }
{
    if text.len() < 2_000_000 {
        parse(alloc, text)
    } else {
        Err(ScriptFault::NoMemory)
    }
}

fn printed_of(alloc: Global, text: &[u8]) -> Result<Vec<u8>, ScriptFault> {
    let script = match read(alloc, text) {
        Ok(script) => script,
        Err(fault) => return Err(fault),
    };
    match print(alloc, &script) {
        Ok(printed) => Ok(printed),
        Err(_) => Err(ScriptFault::NoMemory),
    }
}

fn fault_of(alloc: Global, text: &[u8]) -> Option<ScriptFault> {
    match read(alloc, text) {
        Ok(_) => None,
        Err(fault) => Some(fault),
    }
}

#[test]
fn the_first_broken_line_is_named(rt: HostRuntime) -> Result<(), Fail> {
    let cases: [(&str, ScriptFault); 18] = [
        (
            "at 5 tick 1\nat 4 tick 1\n",
            ScriptFault::Falling { line: 2 },
        ),
        ("at 05 tick 1", ScriptFault::BadNumber { line: 1 }),
        ("clock 0", ScriptFault::BadNumber { line: 1 }),
        ("at 5 serial 6", ScriptFault::BadLine { line: 1 }),
        ("at 5 serial 6A", ScriptFault::BadLine { line: 1 }),
        ("at 05 serial 6", ScriptFault::BadLine { line: 1 }),
        ("clock 5\nclock 0\n", ScriptFault::BadLine { line: 2 }),
        ("at 0 tick 1\nclock 5\n", ScriptFault::BadLine { line: 2 }),
        (
            "at 0 tick 1\nsectors 0 0\n",
            ScriptFault::BadLine { line: 2 },
        ),
        ("\n\n# a\nat 3 line", ScriptFault::BadLine { line: 4 }),
        ("clock 5\r\n", ScriptFault::BadLine { line: 1 }),
        ("clock 1000000001", ScriptFault::BadNumber { line: 1 }),
        ("sectors 5 4", ScriptFault::BadNumber { line: 1 }),
        ("sectors 0 32768", ScriptFault::BadNumber { line: 1 }),
        ("at 1000000001 tick 1", ScriptFault::BadNumber { line: 1 }),
        ("at 0 tick 4294967296", ScriptFault::BadNumber { line: 1 }),
        (
            "at 0 tick 99999999999999999999",
            ScriptFault::BadNumber { line: 1 },
        ),
        (
            "at 9 tick 1\nat 0 latency 1000001",
            ScriptFault::BadNumber { line: 2 },
        ),
    ];
    for (text, fault) in cases {
        assert_eq!(rt;
            fault_of(rt.alloc(), text.as_bytes()),
            Some(fault),
            "at {text}"
        );
    }
    Ok(())
}

#[test]
fn a_script_has_one_canonical_text(rt: HostRuntime) -> Result<(), Fail> {
    let cases: [(&str, &str); 6] = [
        ("", "clock 100\n"),
        ("at 3 line hi", "clock 100\nat 3 serial 68690a\n"),
        ("at 0 line ", "clock 100\nat 0 serial 0a\n"),
        (
            "sectors 0 32767\nclock 1000000000\n",
            "clock 1000000000\nsectors 0 32767\n",
        ),
        (
            "#\n\nclock 1\nat 1000000000 tick 4294967295",
            "clock 1\nat 1000000000 tick 4294967295\n",
        ),
        (
            "at 4 marked 00ff\nat 4 latency 1000000\n",
            "clock 100\nat 4 marked 00ff\nat 4 latency 1000000\n",
        ),
    ];
    for (text, canonical) in cases {
        match printed_of(rt.alloc(), text.as_bytes()) {
            Ok(printed) => assert_eq!(rt; printed.as_slice(), canonical.as_bytes(), "of {text}"),
            Err(fault) => assert!(rt; false, "{fault:?} of {text}"),
        }
    }
    Ok(())
}

fn repeated(alloc: Global, line: &str, count: u32) -> Result<Vec<u8>, AllocError> {
    let mut text = Vec::new(alloc);
    for _ in 0..count {
        text.extend_from_slice(line.as_bytes())?;
    }
    Ok(text)
}

#[test]
fn lines_are_counted(rt: HostRuntime) -> Result<(), Fail> {
    let cases: [(&str, u32, Option<ScriptFault>); 4] = [
        ("at 0 tick 1\n", 65536, None),
        (
            "at 0 tick 1\n",
            65537,
            Some(ScriptFault::TooMany { line: 65537 }),
        ),
        ("sectors 1 2\n", 256, None),
        (
            "sectors 1 2\n",
            257,
            Some(ScriptFault::TooMany { line: 257 }),
        ),
    ];
    for (line, count, fault) in cases {
        let text = repeated(rt.alloc(), line, count)?;
        assert_eq!(rt; fault_of(rt.alloc(), &text), fault, "{count} times {line}");
    }
    Ok(())
}
