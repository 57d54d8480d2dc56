//! The items of small guests.
use crate::{Advance, Machine};
use elf_image::read_flat;
use in_script::{Bytes, Entry, Script, What};
use memory_map::NoMemory;
use run_events::{EndCause, Item, Record};
use std::alloc::Global;
use std::process::Abort;

// It sends a letter at step 2.
const LETTER: [u32; 5] = [0x10000537, 0x04800593, 0x00b50023, 0x10100637, 0x00062023];

// It waits for the timer's interrupt, whose handler ends the run.
const TIMED: [u32; 18] = [
    0x800002b7, 0x04028293, 0x30529073, 0x08000313, 0x30431073, 0x020043b7, 0x00500313, 0x0003a223,
    0x0063a023, 0x30046073, 0x0000006f, 0, 0, 0, 0, 0, 0x10100637, 0x00062023,
];

// It masks its interrupts, and sends what mip shows at step 3.
const MASKING: [u32; 8] = [
    0x100002b7, 0x00100313, 0x0062a423, 0x344023f3, 0x0053d393, 0x00728023, 0x10100637, 0x00062023,
];

// It reads sector 0 to 0x80000200, and sends its first byte.
const READING: [u32; 13] = [
    0x100012b7, 0x80000337, 0x20030313, 0x0062a223, 0x00100393, 0x0072a423, 0x00c2ae03, 0xfe7e0ee3,
    0x00032e83, 0x100002b7, 0x01d28023, 0x10100637, 0x00062023,
];

// It goes nowhere.
const LOOPING: [u32; 1] = [0x0000006f];

// It takes a serial byte through mscratch into a jump.
const JUMPING: [u32; 11] = [
    0x100002b7, 0x0002c303, 0x34031073, 0x340023f3, 0xf9f38393, 0x00000e17, 0x01c383b3, 0x01038067,
    0, 0x10100637, 0x00062023,
];

fn plain(item: Record) -> Item {
    Item { item, byte: None }
}

fn sent(step: u32, byte: u8) -> Item {
    Item {
        item: Record::Reach { step },
        byte: Some(byte),
    }
}

fn mark(step: u32) -> Item {
    plain(Record::Reach { step })
}

fn limit(step: u32) -> Item {
    plain(Record::End {
        step,
        cause: EndCause::Limit,
    })
}

fn lines(step: u32, bits: u8) -> Item {
    plain(Record::Lines { step, bits })
}

fn load(step: u32, value: u32, mark: u8) -> Item {
    plain(Record::Load { step, value, mark })
}

fn power(step: u32) -> Item {
    plain(Record::End {
        step,
        cause: EndCause::Power { status: 0 },
    })
}

// What arrives at a guest.
#[derive(Clone, Copy)]
enum Arrival {
    Ticks { count: u32 },
    Serial { byte: u8, mark: u8 },
    Latency { steps: u32 },
}

fn what(alloc: Global, arrival: Arrival) -> Result<What, NoMemory> {
    Ok(match arrival {
        Arrival::Ticks { count } => What::Tick { count },
        Arrival::Serial { byte, mark } => {
            let bytes = Bytes::new(vec![in alloc; byte]?);
            What::Serial { bytes, mark }
        }
        Arrival::Latency { steps } => What::Latency { steps },
    })
}

// The recorder of a guest of these words, at whose step `at` this arrives, and whose timer rises each `clock` steps.
fn recorder(
    rt: &impl Abort,
    alloc: Global,
    words: &[u32],
    at: u32,
    arrival: Arrival,
    clock: u32,
    disk: Vec<u8>,
) -> Result<Machine, NoMemory> {
    assert!(rt; words.len() <= 18 && disk.len() <= 512 && clock > 0);
    let mut file = Vec::new(alloc);
    for word in words {
        for byte in word.to_le_bytes() {
            file.push(byte)?;
        }
    }
    assert!(rt; file.len() <= 1024);
    let image = read_flat(alloc, file)?;
    let what = what(alloc, arrival)?;
    let script = Script {
        clock,
        sectors: Vec::new(alloc),
        entries: vec![in alloc; Entry { at, what }]?,
    };
    Machine::new(alloc, &image, script, disk, 64, 1000)
}

// The next answers are these items.
fn expect(rt: &impl Abort, machine: &mut Machine, name: &str, items: &[Item]) {
    for expected in items {
        let Item { item, byte } = *expected;
        assert_eq!(rt; machine.advance(), Advance::Item { item, byte }, "{name}");
    }
}

#[test]
fn guests_are_told_by_their_items(rt: HostRuntime) -> Result<(), NoMemory> {
    let alloc = rt.alloc();
    let byte = Arrival::Serial {
        byte: 0x61,
        mark: 0,
    };
    let marked = Arrival::Serial {
        byte: 0x61,
        mark: 1,
    };
    let tick = Arrival::Ticks { count: 5 };
    let guests: [(&str, &[u32], u32, Arrival, &[Item]); 5] = [
        ("a letter", &LETTER, 900, byte, &[sent(3, 0x48), power(5)]),
        (
            "a timer's interrupt",
            &TIMED,
            10,
            tick,
            &[lines(10, 1), power(13)],
        ),
        (
            "a masked line",
            &MASKING,
            3,
            byte,
            &[lines(3, 2), sent(6, 0x40), power(8)],
        ),
        (
            "a late one",
            &MASKING,
            4,
            byte,
            &[lines(4, 2), sent(6, 0), power(8)],
        ),
        (
            "a marked jump",
            &JUMPING,
            0,
            marked,
            &[load(1, 0x61, 1), power(10)],
        ),
    ];
    for (name, words, at, arrival, items) in guests {
        let mut guest = recorder(&rt, alloc, words, at, arrival, 1000, Vec::new(alloc))?;
        expect(&rt, &mut guest, name, items);
        assert_eq!(rt; guest.advance(), Advance::Ended, "{name}");
        assert_eq!(rt; guest.advance(), Advance::Ended, "{name}");
    }
    Ok(())
}

#[test]
fn the_words_of_a_sector_are_told_before_their_step(rt: HostRuntime) -> Result<(), NoMemory> {
    let alloc = rt.alloc();
    let disk = vec![in alloc; 0x51]?;
    let latency = Arrival::Latency { steps: 4 };
    let mut reading = recorder(&rt, alloc, &READING, 0, latency, 1000, disk)?;
    expect(&rt, &mut reading, "before", &[load(6, 1, 0), load(8, 1, 0)]);
    for place in 0..128u32 {
        let word = plain(Record::Dma {
            step: 9,
            address: 0x80000200 + 4 * place,
            word: if place == 0 { 0x51 } else { 0 },
            mark: 0,
        });
        expect(&rt, &mut reading, "a word", &[word]);
    }
    expect(
        &rt,
        &mut reading,
        "after",
        &[load(10, 2, 0), sent(15, 0x51), power(17)],
    );
    Ok(())
}

#[test]
fn plain_steps_end_where_something_is_due(rt: HostRuntime) -> Result<(), NoMemory> {
    let alloc = rt.alloc();
    let byte = Arrival::Serial {
        byte: 0x61,
        mark: 0,
    };
    let mut risen = recorder(&rt, alloc, &TIMED, 900, byte, 5, Vec::new(alloc))?;
    expect(&rt, &mut risen, "a risen timer", &[lines(25, 1), power(28)]);
    let mut looping = recorder(&rt, alloc, &LOOPING, 300, byte, 7, Vec::new(alloc))?;
    let marks = [mark(256), mark(512), mark(768), limit(1000)];
    expect(&rt, &mut looping, "a loop", &marks);
    Ok(())
}
