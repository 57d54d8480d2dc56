//! The entries of a script, gone through once.
ghost use Rattle.std.specs.Prelude.{◌≡◌, ◌+◌, ◌^◌, ◌<◌, length, slice_get, OnSome};
ghost use Rattle.std.specs.Option.{option_map, option_to_list};
ghost use Rattle.machine_model.specs.Board as model;
ghost use Rattle.machine_model.specs.Board.{given};

use in_script::{Entry, What};
use run_events::Supplied;

// The latency of the disk, in steps, until a script says another.
const FIRST_LATENCY: u32 = 1000;

/// The entries of a script, how many of them are due, the latency in force, and the place of the next serial byte.
#[derive(Drop)]
pub struct Schedule {
    pub entries: Vec<Entry>,
    // how many are due
    pub place: usize,
    // how many steps a command of the disk takes now
    pub latency: u32,
    // the entry that has the next serial byte, or the first one that is not due, and how many of its bytes were taken
    pub source: usize,
    pub taken: usize,
}

// The step before which an entry is due.
fn step_of(entry: &Entry) -> u32
    ensures { result ≡ entry.now.at }
{
    entry.at
}

// The ticks of an entry.
fn ticks(entry: &Entry) -> u32
    ensures { result ≡ model.ticks_by entry.now.what }
{
    match &entry.what {
        What::Tick { count } => *count,
        _ => 0,
    }
}

// The latency after an entry.
fn latency_after(entry: &Entry, latency: u32) -> u32
    ensures { result ≡ model.last_or latency (option_to_list (model.latency_by entry.now.what)) }
{
    match &entry.what {
        What::Latency { steps } => *steps,
        _ => latency,
    }
}

// How many serial bytes an entry has.
fn byte_count(entry: &Entry) -> usize
    ensures { result ≡ length (model.arrivals_of entry.now) }
{
    match &entry.what {
        What::Serial { bytes, .. } => bytes.len(),
        _ => 0,
    }
}

// An entry's serial byte after so many of them.
fn byte_after(entry: &Entry, taken: usize) -> Option<Supplied>
    ensures byte { result ≡ option_map given (slice_get (model.arrivals_of entry.now) taken) }
    ensures room { OnSome result (taken + 1 < 2 ^ 64) }
{
    match &entry.what {
        What::Serial { bytes, mark } => match bytes.as_slice().get(taken) {
            Some(byte) => Some(Supplied {
                value: u32::from(*byte),
                mark: *mark,
            }),
            None => None,
        },
        _ => None,
    }
}

impl Schedule {
    ghost use Rattle.std.specs.Prelude.{◌≡◌, ℕ, ◌+◌, ◌%◌, ◌^◌, ◌≤◌, ◌<◌, List, length, slice_get, drop, nat_le, nat_lt, IfSome, OnSome, if◌then◌else◌};
    ghost use Rattle.std.specs.Option.{option_map};
    ghost use Rattle.machine_model.specs.Script.{Entry as Arrives};
    ghost use Rattle.machine_model.specs.Board.{RisesFrom, byte_given, given};
    ghost use Rattle.rv_devices.specs.Entries.{AreDue, AreLater, entry_due, ticks_before, latency_before, arrivals_at};
    ghost use Rattle.rv_devices.specs.Follows.{Follows, left_of, next_byte};

    /// The schedule of these entries, before the first step.
    pub fn new(entries: Vec<Entry>) -> Schedule
        ensures { Follows entries.items 0 0 result }
    {
        Schedule {
            entries,
            place: 0,
            latency: FIRST_LATENCY,
            source: 0,
            taken: 0,
        }
    }

    // Passes the entries that are due at a step, and answers their ticks, modulo 2 ^ 64.
    fn pass_due(&mut self, step: u32) -> u64
        ensures entries { self.new.entries.items ≡ self.old.entries.items }
        ensures source { self.new.source ≡ self.old.source }
        ensures taken { self.new.taken ≡ self.old.taken }
        ensures forward { self.old.place ≤ self.new.place }
        ensures due { AreDue (step + 1) self.old.place self.old.entries.items
            → AreDue (step + 1) self.new.place self.old.entries.items }
        ensures stops { IfSome (slice_get self.old.entries.items self.new.place)
            (λ entry. step + 1 ≤ entry.at) }
        ensures ticks { (result + ticks_before self.old.place self.old.entries.items) % 2 ^ 64
            ≡ ticks_before self.new.place self.old.entries.items % 2 ^ 64 }
        ensures latency { self.old.latency ≡ latency_before self.old.place self.old.entries.items
            → self.new.latency ≡ latency_before self.new.place self.old.entries.items }
    {
        let mut passed = 0u64;
        'entries: while self.place < self.entries.len() {
            let entry = &self.entries[self.place];
            if step_of(entry) > step {
                break;
            }
            passed = passed.wrapping_add(u64::from(ticks(entry)));
            self.latency = latency_after(entry, self.latency);
            self.place += 1;
        }
        passed
    }

    // Whether no byte is left of the entry that had the last one.
    fn is_spent(&self) -> bool
        ensures { result
            ≡ nat_le (length (arrivals_at self.now.source self.now.entries.items)) self.now.taken }
    {
        match self.entries.get(self.source) {
            Some(entry) => byte_count(entry) <= self.taken,
            None => true,
        }
    }

    // Goes on to the next entry that is due and has a byte left, if there is one.
    fn skip(&mut self)
        ensures entries { self.new.entries.items ≡ self.old.entries.items }
        ensures place { self.new.place ≡ self.old.place }
        ensures latency { self.new.latency ≡ self.old.latency }
        ensures within { self.old.source ≤ self.old.place → self.new.source ≤ self.new.place }
        ensures left { self.old.taken ≤ length (arrivals_at self.old.source self.old.entries.items)
            → left_of self.new ≡ left_of self.old }
        ensures clear { self.new.source < self.new.place
            → self.new.taken < length (arrivals_at self.new.source self.new.entries.items) }
        ensures fresh { (self.old.place ≤ self.old.source → self.old.taken ≡ 0)
            → self.new.place ≤ self.new.source
            → self.new.taken ≡ 0 }
    {
        'spent: while self.source < self.place && self.is_spent() {
            self.source += 1;
            self.taken = 0;
        }
    }

    /// Goes on to this step, and answers the ticks of the entries that fell due, modulo 2 ^ 64.
    pub fn advance(&mut self, step: u32) -> u64
        ensures follows { (entries : List Arrives) (taken : ℕ)
            → RisesFrom 0 entries
            → Follows entries step taken self.old
            → Follows entries (step + 1) taken self.new }
        ensures ticks { (result + ticks_before self.old.place self.old.entries.items) % 2 ^ 64
            ≡ ticks_before self.new.place self.old.entries.items % 2 ^ 64 }
        ensures entries { self.new.entries.items ≡ self.old.entries.items }
    {
        let passed = self.pass_due(step);
        self.skip();
        passed
    }

    /// The step before which the next entry is due; where there is none, one that no run reaches.
    pub fn due(&self) -> u64
        ensures exact { result ≡ entry_due self.now.entries.items self.now.place }
        ensures later { RisesFrom 0 self.now.entries.items
            → AreLater result (drop self.now.place self.now.entries.items) }
    {
        if self.place < self.entries.len() {
            u64::from(step_of(&self.entries[self.place]))
        } else {
            u64::MAX
        }
    }

    /// The latency in force.
    pub fn latency(&self) -> u32
        ensures { result ≡ self.now.latency }
    {
        self.latency
    }

    /// Whether a serial byte waits.
    pub fn waits(&self) -> bool
        ensures { result ≡ nat_lt self.now.source self.now.place }
    {
        self.source < self.place
    }

    // The serial byte that waits.
    fn next_byte(&self) -> Option<Supplied>
        ensures byte { result ≡ option_map given (next_byte self.now) }
        ensures room { OnSome result (self.now.taken + 1 < 2 ^ 64) }
    {
        if self.source >= self.place {
            return None;
        }
        match self.entries.get(self.source) {
            Some(entry) => byte_after(entry, self.taken),
            None => None,
        }
    }

    /// Takes the serial byte that waits, if one does.
    pub fn take(&mut self) -> Supplied
        ensures byte { result ≡ byte_given (next_byte self.old) }
        ensures follows { (entries : List Arrives) (begun taken : ℕ)
            → Follows entries begun taken self.old
            → Follows entries begun
            (if nat_lt self.old.source self.old.place then taken + 1 else taken) self.new }
        ensures place { self.new.place ≡ self.old.place }
        ensures entries { self.new.entries.items ≡ self.old.entries.items }
    {
        let Some(byte) = self.next_byte() else {
            return Supplied { value: 0, mark: 0 };
        };
        self.taken += 1;
        self.skip();
        byte
    }
}
