//! What a script says of a run's outside: the clock, the marked sectors of the disk, and what arrives when.

use crate::bytes::Bytes;
use std::marker::Model;

/// The sectors of the disk from `first` to `last`, both included.
#[derive(Drop)]
pub struct Span {
    pub first: u32,
    pub last: u32,
}

impl Model for Span {
    ghost use Rattle.machine_model.specs.Script.{Span as Sectors};

    ghost Value = { Sectors };

    ghost view = { λ s. record { first = s.first; last = s.last } };
}

/// What arrives.
#[derive(Drop)]
pub enum What {
    /// These bytes come on the serial line, each with this mark, which is 0 or 1.
    Serial { bytes: Bytes, mark: u8 },
    /// The timer rises by `count` at once.
    Tick { count: u32 },
    /// From then on a command of the disk takes this number of steps.
    Latency { steps: u32 },
}

/// What arrives before the step `at`.
#[derive(Drop)]
pub struct Entry {
    pub at: u32,
    pub what: What,
}

impl Model for Entry {
    ghost use Rattle.machine_model.specs.Script.{Entry as Arrival};

    ghost Value = { Arrival };

    ghost use Rattle.in_script.specs.What.{arrives};

    ghost view = { λ e. record { at = e.at; what = arrives e.what } };
}

/// The timer rises each `clock` steps; the words of the `sectors` are marked; the steps of the `entries` do not fall.
#[derive(Drop)]
pub struct Script {
    pub clock: u32,
    pub sectors: Vec<Span>,
    pub entries: Vec<Entry>,
}

impl Model for Script {
    ghost use Rattle.machine_model.specs.Script.{Script as Outside};

    ghost Value = { Outside };

    ghost view = { λ s. record {
      clock = s.clock;
      sectors = s.sectors.items;
      entries = s.entries.items;
    } };
}
