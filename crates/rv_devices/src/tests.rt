//! What a board gives of a serial byte, from the step at which it arrives until it is taken.
ghost use Rattle.std.specs.Prelude.{◌≡◌, ◌+◌, ◌≤◌, IfOk};
ghost use Rattle.rv_devices.specs.Stands.{steps_begun, words_due};

use crate::Board;
use in_script::{Bytes, Entry, Script, What};
use memory_map::{NoMemory, SERIAL_DATA, SERIAL_STATUS};
use run_events::Supplied;
use std::alloc::Global;
use std::process::Abort;

// A board without a disk, at whose step 7 one byte with this mark arrives.
fn board_of(alloc: Global, mark: u8) -> Result<Board, NoMemory>
    ensures begun { IfOk result (λ board. steps_begun board ≡ 0) }
    ensures left { IfOk result (λ board. words_due board ≡ 0) }
{
    let bytes = Bytes::new(vec![in alloc; 0x61]?);
    let what = What::Serial { bytes, mark };
    let script = Script {
        clock: 100,
        sectors: Vec::new(alloc),
        entries: vec![in alloc; Entry { at: 7, what }]?,
    };
    Board::new(script, Vec::new(alloc))
}

// Begins a step, before which the disk writes nothing.
fn begin(rt: &impl Abort, board: &mut Board, step: u32)
    requires order { step ≡ steps_begun board.old }
    requires drained { words_due board.old ≡ 0 }
    ensures begun { steps_begun board.new ≡ step + 1 }
    ensures left { words_due board.new ≡ 0 }
{
    board.begin(step);
    assert!(rt; board.due().is_none(), "at {step}");
}

// A load of a register of the serial line gives this value with this mark.
fn expect(rt: &impl Abort, board: &mut Board, address: u32, value: u32, mark: u8)
    requires { 1 ≤ steps_begun board.old }
    ensures begun { steps_begun board.new ≡ steps_begun board.old }
    ensures left { words_due board.new ≡ words_due board.old }
{
    assert!(rt; address == SERIAL_STATUS || address == SERIAL_DATA);
    assert_eq!(rt;
        board.load(address),
        Supplied { value, mark },
        "{address:x}"
    );
}

#[test]
fn a_serial_byte_waits_until_it_is_taken(rt: HostRuntime) -> Result<(), NoMemory> {
    for mark in [0, 1] {
        let mut board = board_of(rt.alloc(), mark)?;
        for step in 0..7 {
            begin(&rt, &mut board, step);
        }
        expect(&rt, &mut board, SERIAL_STATUS, 2, 0);
        begin(&rt, &mut board, 7);
        expect(&rt, &mut board, SERIAL_STATUS, 3, 0);
        expect(&rt, &mut board, SERIAL_DATA, 0x61, mark);
        expect(&rt, &mut board, SERIAL_STATUS, 2, 0);
        expect(&rt, &mut board, SERIAL_DATA, 0, 0);
    }
    Ok(())
}
