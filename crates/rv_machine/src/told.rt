//! The records that a step's inputs and its event make.
ghost use Rattle.memory_map.specs.declared.TheConstants.{MOST_STEPS};
ghost use Rattle.std.specs.Prelude.{◌≡◌, ◌+◌, ◌<◌, List};
ghost use Rattle.any_machine.specs.Log.{plain_item, reach_items, word_record};
ghost use Rattle.any_machine.specs.Machine.{power_status};
ghost use Rattle.rv_machine.specs.Phase.{items_of, mark_items, phase_after};

use crate::phase::Phase;
use memory_map::{POWER, SERIAL_DATA};
use run_events::{DmaWord, EndCause, Event, Item, Record};

// After so many steps each, a record tells that they are done.
const MARK_STEPS: u32 = 256;

/// A record that lets no byte go.
pub fn plain(item: Record) -> Item
    ensures { result ≡ plain_item item }
{
    Item { item, byte: None }
}

/// A word that the disk writes before a step.
pub fn word_item(step: u32, word: &DmaWord) -> Item
    ensures { result ≡ plain_item (word_record step word.now) }
{
    plain(Record::Dma {
        step,
        address: word.address,
        word: word.word,
        mark: word.mark,
    })
}

/// That a step is done, where its event sent a byte, or where its number plus 1 is a multiple of 256.
pub fn reach_item(step: u32, event: &Event) -> Option<Item>
    requires { step < MOST_STEPS }
    ensures { items_of result ≡ reach_items step event.now }
{
    let byte = event.byte_stored(SERIAL_DATA);
    let done = step + 1;
    if byte.is_some() || done % MARK_STEPS == 0 {
        Some(Item {
            item: Record::Reach { step: done },
            byte,
        })
    } else {
        None
    }
}

/// That so many steps are done, where their number is a multiple of 256 and the last one sent nothing.
pub fn mark_item(done: u32) -> Option<Item>
    ensures { items_of result ≡ mark_items done }
{
    if done % MARK_STEPS == 0 {
        Some(plain(Record::Reach { step: done }))
    } else {
        None
    }
}

/// How a run goes on after a step: the guest ends it by a store at the power register.
pub fn after_power(event: &Event) -> Phase
    ensures { result ≡ phase_after (power_status event.now) }
{
    match event.byte_stored(POWER) {
        Some(status) => Phase::Ending {
            cause: EndCause::Power { status },
        },
        None => Phase::Between,
    }
}
