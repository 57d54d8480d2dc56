//! Guests that run to their end.
use crate::program::{Wanted, expect, expect_records, files_of, flat, words_of};
use crate::{guests, texts};
use std::alloc::Global;
use std::process::Abort;
use std::test::Fail;

// A run: its image, its script, its disk file, its options, and what it comes to.
#[derive(Clone, Copy)]
struct Run<'a> {
    title: &'a str,
    image: &'a [u32],
    script: &'a str,
    disk: &'a [u8],
    options: &'a str,
    status: u8,
    text: &'a str,
    records: u64,
}

fn expect_run(rt: &impl Abort, alloc: Global, run: Run<'_>) -> Result<(), Fail> {
    let image = flat(alloc, run.image)?;
    let script = run.script.as_bytes();
    let mut files = files_of(alloc, Some(&image), Some(script), Some(run.disk))?;
    let mut words = words_of(alloc, "run guest.bin guest.txt")?;
    for word in words_of(alloc, run.options)? {
        words.push(word)?;
    }
    let wanted = Wanted {
        status: run.status,
        text: run.text.as_bytes(),
        line: "",
    };
    let outcome = expect(rt, alloc, &mut files, &words, wanted)?;
    expect_records(rt, &outcome, run.records, run.title);
    Ok(())
}

// What goes out, and what is held back.
const RELEASES: [Run<'static>; 5] = [
    Run {
        title: "one byte, and no finding",
        image: &guests::HELLO,
        script: "",
        disk: &[],
        options: "--with cover",
        status: 0,
        text: texts::HELLO,
        records: 2,
    },
    Run {
        title: "no code, up to the limit",
        image: &[],
        script: "",
        disk: &[],
        options: "--with cover --steps 3",
        status: 1,
        text: texts::NOTHING,
        records: 1,
    },
    Run {
        title: "bytes sent without the lock that guards the register",
        image: &guests::UNGUARDED,
        script: "",
        disk: &[],
        options: "--with locks",
        status: 1,
        text: texts::UNGUARDED,
        records: 4,
    },
    Run {
        title: "the same in best-effort mode",
        image: &guests::UNGUARDED,
        script: "",
        disk: &[],
        options: "--with locks --mode best",
        status: 1,
        text: texts::UNGUARDED_ALL,
        records: 4,
    },
    Run {
        title: "the same with nothing required",
        image: &guests::UNGUARDED,
        script: "",
        disk: &[],
        options: "--with locks --require none",
        status: 1,
        text: texts::UNGUARDED_ALL,
        records: 4,
    },
];

#[test]
fn output_ends_before_the_first_refused_step(rt: HostRuntime) -> Result<(), Fail> {
    for run in RELEASES {
        expect_run(&rt, rt.alloc(), run)?;
    }
    Ok(())
}

// What arrives, and what the guest makes of it.
const ARRIVALS: [Run<'static>; 6] = [
    Run {
        title: "the timer's interrupt",
        image: &guests::TIMED,
        script: "clock 1000000000\nat 10 tick 5\n",
        disk: &[],
        options: "--with cover",
        status: 0,
        text: texts::TIMED,
        records: 2,
    },
    Run {
        title: "a line that is seen although it is masked",
        image: &guests::MASKING,
        script: "at 3 serial 61\n",
        disk: &[],
        options: "--with cover",
        status: 0,
        text: texts::MASKING,
        records: 3,
    },
    Run {
        title: "the same, a step too late",
        image: &guests::MASKING,
        script: "at 4 serial 61",
        disk: &[],
        options: "--with cover",
        status: 0,
        text: texts::MASKING_LATE,
        records: 3,
    },
    Run {
        title: "a marked byte in the address of a jump",
        image: &guests::JUMPING,
        script: "at 0 marked 61\n",
        disk: &[],
        options: "--with taint",
        status: 1,
        text: texts::JUMPING,
        records: 2,
    },
    Run {
        title: "one that is replaced before",
        image: &guests::JUMPING_CLEAN,
        script: "at 0 marked 61\n",
        disk: &[],
        options: "--with taint",
        status: 0,
        text: texts::JUMPING_CLEAN,
        records: 2,
    },
    Run {
        title: "a line sent back through a block, under all analyses",
        image: &guests::ECHO,
        script: "at 20 line hi\n",
        disk: &[],
        options: "",
        status: 0,
        text: texts::ECHO,
        records: 15,
    },
];

#[test]
fn inputs_come_when_the_script_says(rt: HostRuntime) -> Result<(), Fail> {
    for run in ARRIVALS {
        expect_run(&rt, rt.alloc(), run)?;
    }
    Ok(())
}

#[test]
fn what_is_written_does_not_depend_on_the_turns(rt: HostRuntime) -> Result<(), Fail> {
    for turns in ["a0r", "aaaa0r", "r0a"] {
        let mut options = String::from_str(
            rt.alloc(),
            "--disk disk.bin --with cover --log 16 --turns ",
        )?;
        options.push_str(turns)?;
        let run = Run {
            title: "a sector of the disk, through a log of 16 places",
            image: &guests::READING,
            script: "at 0 latency 4\n",
            disk: b"Q",
            options: &options,
            status: 0,
            text: texts::READING,
            records: 133,
        };
        expect_run(&rt, rt.alloc(), run)?;
    }
    Ok(())
}

#[test]
fn five_replicas_take_turns_in_any_order(rt: HostRuntime) -> Result<(), Fail> {
    for turns in [
        "a01234r",
        "aaaaaaaaaaaaaaaaaaaa43210r",
        "r0a1234",
        "a0a0a0a1r234",
    ] {
        let options = format!(in rt.alloc(); "--log 16 --turns {turns}")?;
        let run = Run {
            title: "a line sent back through a block, by turns",
            image: &guests::ECHO,
            script: "at 20 line hi\n",
            disk: &[],
            options: &options,
            status: 0,
            text: texts::ECHO,
            records: 15,
        };
        expect_run(&rt, rt.alloc(), run)?;
    }
    Ok(())
}

#[test]
fn the_recorder_waits_for_room_in_the_gate(rt: HostRuntime) -> Result<(), Fail> {
    let alloc = rt.alloc();
    let mut options = String::from_str(alloc, "--with cover --log 8192 --turns ")?;
    for _turn in 0..62u32 {
        options.push_str("a")?;
    }
    options.push_str("0r")?;
    let mut text = String::new(alloc);
    for _dot in 0..4300u32 {
        text.push_str(".")?;
    }
    text.push_str(texts::DOTS)?;
    let run = Run {
        title: "4,300 bytes through a gate of 4,096",
        image: &guests::DOTS,
        script: "",
        disk: &[],
        options: &options,
        status: 0,
        text: &text,
        records: 4334,
    };
    expect_run(&rt, alloc, run)
}
