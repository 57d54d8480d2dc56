//! What the lines of a script have said so far.
ghost use Rattle.std.specs.Prelude.{◌≡◌, OnOk};
ghost use Rattle.format_model.specs.Script.{last_step};
ghost use Rattle.format_model.specs.ScriptReading.{nothing, with_line, line_at, script_so_far};
ghost use Rattle.in_script.specs.Lines.{says};
ghost use Rattle.in_script.specs.Reads.{Gives};

use crate::fault::Broken;
use crate::line::{Line, clock_at, entry_at, is_blank, sectors_at};
use crate::script::{Entry, Script, Span};
use crate::text::after;
use memory_map::NoMemory;
use std::alloc::Global;
use std::marker::Model;

// The period that a script without a clock has.
const DEFAULT_PERIOD: u32 = 100;

// What was said: the clock is None where no line gave it.
#[derive(Drop)]
pub(crate) struct Draft {
    clock: Option<u32>,
    sectors: Vec<Span>,
    entries: Vec<Entry>,
}

impl Model for Draft {
    ghost use Rattle.format_model.specs.ScriptReading.{SoFar};

    ghost Value = { SoFar };

    ghost view = { λ d. record {
      clock = d.clock;
      sectors = d.sectors.items;
      entries = d.entries.items;
    } };
}

// The step of the last entry; 0 where there is none.
fn last_step(entries: &[Entry]) -> u32
    ensures { result ≡ last_step entries.now }
{
    match entries {
        [] => 0,
        [.., last] => last.at,
    }
}

impl Draft {
    // Before the first line.
    pub(crate) fn new(alloc: Global) -> Draft
        ensures { result ≡ nothing }
    {
        Draft {
            clock: None,
            sectors: Vec::new(alloc),
            entries: Vec::new(alloc),
        }
    }

    // What the next line says.
    #[tactic(auto, unfolding(format_model::specs::ScriptReading::line_at))]
    pub(crate) fn line_at(&self, alloc: Global, text: &[u8]) -> Result<Line, Broken>
        ensures { Gives says result (line_at self.now text.now) }
    {
        if is_blank(text) {
            return Ok(Line::Blank);
        }
        let is_first = self.entries.is_empty();
        if let Some(period) = after(text, b"clock ") {
            return clock_at(self.clock.is_none() && is_first, period);
        }
        if let Some(numbers) = after(text, b"sectors ") {
            return sectors_at(is_first, self.sectors.len(), numbers);
        }
        match after(text, b"at ") {
            Some(rest) => entry_at(alloc, last_step(&self.entries), self.entries.len(), rest),
            None => Err(Broken::BadLine),
        }
    }

    // Takes in what a line says.
    pub(crate) fn add(&mut self, line: Line) -> Result<(), NoMemory>
        ensures { OnOk result (self.new ≡ with_line self.old (says line)) }
    {
        match line {
            Line::Blank => {}
            Line::Clock(period) => self.clock = Some(period),
            Line::Sectors(span) => self.sectors.push(span)?,
            Line::At(entry) => self.entries.push(entry)?,
        }
        Ok(())
    }

    // The script, after the last line.
    pub(crate) fn finish(self) -> Script
        ensures { result ≡ script_so_far self }
    {
        let Draft {
            clock,
            sectors,
            entries,
        } = self;
        Script {
            clock: clock.unwrap_or(DEFAULT_PERIOD),
            sectors,
            entries,
        }
    }
}
