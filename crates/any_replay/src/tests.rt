//! Each fault of a list once, and lists that fit, on a toy hart.
ghost use Rattle.std.specs.Prelude.{◌==◌, [], if◌then◌else◌, refl, true};
ghost use Rattle.std.proofs.Common.{suc};
ghost use Rattle.memory_map.specs.declared.TheConstants.{SERIAL_DATA, POWER, RAM_START};
ghost use Rattle.run_events.specs.declared.access.Access.TheVariants as access;
ghost use Rattle.run_events.specs.declared.event.Event.TheVariants as event;
ghost use Rattle.run_events.specs.declared.supply.Need.TheVariants as need;
ghost use Rattle.std.specs.Option.{option_map_or};
ghost use Rattle.run_events.specs.declared.supply.Supplied.{Supplied as Given};

use crate::Replay;
use any_machine::Hart;
use memory_map::{POWER, RAM_START, SERIAL_DATA};
use run_events::{
    Access, Diverged, EndCause, Event, Need, Record, Supplied, Told, Watcher, Why, is_record,
};
use std::test::Fail;

// A hart that loads a device register at step 0, looks at the lines at step 1, and powers off with them at step 3.
#[derive(Drop)]
struct Toy {
    step: u32,
    holding: u32,
}

impl Hart for Toy {
    ghost machine = { record {
      needs = λ s lines. if s.step == 0 then need.Load SERIAL_DATA 4 else need.Nothing;
      step = λ s lines supplied.
          let holding = if s.step == 0 then option_map_or (λ (given : Given). given.value) supplied 0 else if s.step == 1 then lines else s.holding in
          (event.Exec s.step RAM_START 0 RAM_START holding (if s.step == 3 then access.Store POWER 4 s.holding true else access.Quiet) (record { a0 = 0; a1 = 0; a2 = 0 }), record { step = suc s.step; holding = holding });
      touch = λ s word. (event.Dma s.step word.address word.word word.mark, s);
      holds = λ s address. address == RAM_START;
    } };

    ghost done = { λ s. s.step };

    ghost ram_size = { λ _. 65536 };

    fn steps(&self) -> u32 {
        self.step
    }

    fn next_need(&self, _lines: u8) -> Need {
        if self.step == 0 {
            Need::Load {
                address: SERIAL_DATA,
                width: 4,
            }
        } else {
            Need::Nothing
        }
    }

    fn holds(&self, address: u32) -> bool {
        address == RAM_START
    }

    fn step(&mut self, lines: u8, supplied: Option<Supplied>) -> Event {
        let step = self.step;
        let access = if step == 3 {
            Access::Store {
                address: POWER,
                width: 4,
                value: self.holding,
                device: true,
            }
        } else {
            Access::Quiet
        };
        if step == 0 {
            self.holding = supplied.map_or(0, |given| given.value);
        } else if step == 1 {
            self.holding = u32::from(lines);
        }
        self.step = step + 1;
        Event::Exec {
            step,
            pc: RAM_START,
            word: 0,
            next: RAM_START,
            result: self.holding,
            access,
            told: Told {
                a0: 0,
                a1: 0,
                a2: 0,
            },
        }
    }

    #[tactic(auto, using(any_machine::proofs::RunningLaws::loop_first))]
    fn run_fast<W: Watcher>(&mut self, _lines: u8, _number: u32, _seen: &mut W) {}

    fn feed_fast<W: Watcher>(&mut self, _lines: u8, _supplied: Supplied, _seen: &mut W) -> bool {
        false
    }

    fn dma(&mut self, address: u32, word: u32, mark: u8) -> Event {
        Event::Dma {
            step: self.step,
            address,
            word,
            mark,
        }
    }

    ghost counts = { record { stepped = λ s lines supplied. refl; touched_not = λ s word. refl; step_told = λ s lines supplied. refl; word_told = λ s word. refl } };

    ghost sized = { λ s t address same. refl };
}

// A watcher that counts.
#[derive(Drop)]
struct Counter {
    events: u32,
}

impl Watcher for Counter {
    ghost has_seen = { λ _ _. Unit {0} };

    ghost ram_kib = { λ _. 64 };

    ghost make = { λ _. [] };

    fn see(&mut self, _event: &Event) {
        self.events = self.events.saturating_add(1);
    }
}

// The last answer for a list, the number of steps done, and the number of events shown.
fn fed(items: &[Record]) -> (Option<Diverged>, u32, u32) {
    let mut replay = Replay::new(Toy {
        step: 0,
        holding: 0,
    });
    let mut counter = Counter { events: 0 };
    let mut fault = None;
    for item in items {
        if is_record(item) {
            fault = replay.take(item, &mut counter).err();
        }
    }
    (fault, replay.reach(), counter.events)
}

fn at(step: u32, why: Why) -> Option<Diverged> {
    Some(Diverged { step, why })
}

fn load(step: u32) -> Record {
    Record::Load {
        step,
        value: 65,
        mark: 1,
    }
}

fn word(step: u32, address: u32) -> Record {
    Record::Dma {
        step,
        address,
        word: 7,
        mark: 0,
    }
}

fn power(step: u32, status: u8) -> Record {
    Record::End {
        step,
        cause: EndCause::Power { status },
    }
}

fn limit(step: u32) -> Record {
    Record::End {
        step,
        cause: EndCause::Limit,
    }
}

#[test]
fn accepts_lists_that_fit(rt: HostRuntime) -> Result<(), Fail> {
    let lines = Record::Lines { step: 1, bits: 2 };
    let reach = Record::Reach { step: 4 };
    assert_eq!(rt; fed(&[]), (None, 0, 0), "nothing");
    assert_eq!(rt;
        fed(&[load(0), lines, reach, power(4, 2)]),
        (None, 4, 4),
        "a whole run"
    );
    assert_eq!(rt;
        fed(&[load(0), word(2, RAM_START), limit(2)]),
        (None, 2, 3),
        "up to a limit"
    );
    Ok(())
}

#[test]
fn tells_the_first_fault(rt: HostRuntime) -> Result<(), Fail> {
    let lines = Record::Lines { step: 1, bits: 2 };
    let reach = |step| Record::Reach { step };
    assert_eq!(rt;
        fed(&[load(0), reach(2), lines]),
        (at(1, Why::StepFalls), 2, 2),
        "falls"
    );
    assert_eq!(rt;
        fed(&[reach(1)]),
        (at(0, Why::MissingLoad), 0, 0),
        "no value"
    );
    assert_eq!(rt;
        fed(&[load(0), load(1), reach(2)]),
        (at(1, Why::UnusedLoad), 1, 1),
        "no load"
    );
    assert_eq!(rt;
        fed(&[load(0), reach(5)]),
        (at(3, Why::EndsElsewhere), 4, 4),
        "goes on"
    );
    assert_eq!(rt;
        fed(&[load(0), reach(4), word(4, RAM_START)]),
        (at(3, Why::EndsElsewhere), 4, 4),
        "a word after the store"
    );
    assert_eq!(rt;
        fed(&[load(0), lines, power(4, 1)]),
        (at(3, Why::EndsElsewhere), 4, 4),
        "status"
    );
    assert_eq!(rt;
        fed(&[load(0), load(1), limit(1)]),
        (at(1, Why::UnusedLoad), 1, 1),
        "kept"
    );
    assert_eq!(rt;
        fed(&[load(0), power(2, 0)]),
        (at(2, Why::EndsElsewhere), 2, 2),
        "no store"
    );
    assert_eq!(rt;
        fed(&[load(0), limit(4)]),
        (at(3, Why::EndsElsewhere), 4, 4),
        "the limit"
    );
    assert_eq!(rt;
        fed(&[load(0), word(2, RAM_START), word(2, 2)]),
        (at(2, Why::BadDma), 2, 3),
        "outside RAM"
    );
    assert_eq!(rt;
        fed(&[reach(1), load(0)]),
        (at(0, Why::MissingLoad), 0, 0),
        "stands"
    );
    Ok(())
}
