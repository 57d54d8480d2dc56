//! The tally of findings.
ghost use Rattle.std.specs.Prelude.{◌≡◌, ◌≤◌, List, [], ◌∷◌, ◌++◌, length, take};
ghost use Rattle.run_events.specs.declared.finding.Finding.{Finding};
ghost use Rattle.finding_tally.specs.Tallied.{Tallies, with_finding, tallied_with};

use memory_map::SharedByThreads;
use run_events::{Finding, FindingKind};
use std::marker::Model;

/// The findings of an analysis: the step of the first, how many there are, and the first 64 of them.
/// They lie in the value itself, so that no call takes memory.
#[derive(Drop)]
pub struct Tally {
    first: Option<u32>,
    count: u64,
    places: [Finding; 64],
    used: usize,
}

impl SharedByThreads for Tally {}

impl Model for Tally {
    ghost use Rattle.std.specs.Prelude.{◌≤◌, take};
    ghost use Rattle.finding_tally.specs.Tallied.{Tallied};

    ghost Value = { Tallied };

    ghost view = { λ t. record { first = t.first; count = t.count; kept = take t.used t.places } };

    ghost invariant = { λ t. t.used ≤ 64 };
}

impl Tally {
    /// No finding yet.
    pub fn new() -> Tally
        ensures { Tallies result [] }
    {
        let blank = Finding {
            step: 0,
            pc: 0,
            kind: FindingKind::Outside,
            address: 0,
        };
        Tally {
            first: None,
            count: 0,
            places: [blank; 64],
            used: 0,
        }
    }

    /// Adds the next finding. The number stops at 2^64 - 1.
    #[cold]
    pub fn add(&mut self, finding: Finding)
        ensures effect { self.new ≡ with_finding self.old finding }
        ensures tallied { (found : List Finding)
            → Tallies self.old found
            → Tallies self.new (found ++ finding ∷ []) }
    {
        self.first = Some(self.first.unwrap_or(finding.step));
        self.count = self.count.saturating_add(1);
        self.used = keep(&mut self.places, self.used, finding);
    }

    /// Adds the next finding, where there is one.
    pub fn note(&mut self, finding: Option<Finding>)
        ensures { self.new ≡ tallied_with self.old finding }
    {
        match finding {
            Some(finding) => self.add(finding),
            None => {}
        }
    }

    /// The step of the first finding.
    pub fn first(&self) -> Option<u32>
        ensures { result ≡ self.now.first }
    {
        self.first
    }

    /// How many findings there are, at most 2^64 - 1.
    pub fn count(&self) -> u64
        ensures { result ≡ self.now.count }
    {
        self.count
    }

    /// The first findings, at most 64, in order.
    pub fn kept(&self) -> &[Finding]
        ensures { result.now ≡ self.now.kept }
    {
        &self.places[..self.used]
    }
}

// Puts the finding after the `used` first ones where there is room, and answers how many are used then.
#[tactic(auto, using(crate::proofs::TalliedLaws::keep_one, crate::proofs::TalliedLaws::keep_none))]
fn keep(places: &mut [Finding], used: usize, finding: Finding) -> usize
    requires whole { length places.old ≡ 64 }
    requires within { used ≤ 64 }
    ensures kept { take result places.new ≡ take 64 (take used places.old ++ finding ∷ []) }
    ensures within { result ≤ 64 }
{
    if used == 64 {
        return used;
    }
    places[used] = finding;
    used + 1
}
