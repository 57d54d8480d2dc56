//! The lines of one analysis.
ghost use Rattle.std.specs.Prelude.{is_err, ◌≡◌, ◌<◌, ◌≤◌, List, slice_index_or, length, OnOk, OnErr, take};
ghost use Rattle.std.specs.List.{flat_map};
ghost use Rattle.run_events.specs.declared.event.Event.{Event};
ghost use Rattle.after_edge.specs.Sink.{Writes, WritesPart};
ghost use Rattle.analysis_model.specs.Report.{range_line, ranges_text};
ghost use Rattle.coverage_map.specs.Coverage.{pcs_now, ranges_now};
ghost use Rattle.analysis_set.specs.Analysis.{HasSeen, kib_of, made_of, more_made, part_made};

use crate::put::put_findings;
use crate::{Analysis, AnyAnalysis, lines};
use after_edge::{Failed, Sink};
use coverage_map::Coverage;
use text_line::Line;

/// Writes the lines of an analysis: the number of its findings and the step of the first, what its kind tells beside
/// them, and the first findings.
pub fn report_part<O: Sink>(analysis: &AnyAnalysis, out: &mut O) -> Result<(), Failed>
    ensures ok { OnOk result ((h : List Event) → HasSeen analysis.now h →
        Writes O.told out.old out.new (part_made (kib_of analysis.now) (made_of analysis.now) h)) }
    ensures err { OnErr result ((h : List Event) → HasSeen analysis.now h →
        WritesPart O.told out.old out.new
        (part_made (kib_of analysis.now) (made_of analysis.now) h)) }
{
    let kind = analysis.kind();
    let counted = lines::findings(kind, analysis.count(), analysis.first());
    out.put(counted.as_bytes())?;
    put_more(analysis, out)?;
    put_findings(kind, analysis.kept(), out)
}

// What stands between the number of the findings and the findings.
fn put_more<O: Sink>(analysis: &AnyAnalysis, out: &mut O) -> Result<(), Failed>
    ensures ok { OnOk result ((h : List Event) → HasSeen analysis.now h →
        Writes O.told out.old out.new (more_made (kib_of analysis.now) (made_of analysis.now) h)) }
    ensures err { OnErr result ((h : List Event) → HasSeen analysis.now h →
        WritesPart O.told out.old out.new
        (more_made (kib_of analysis.now) (made_of analysis.now) h)) }
{
    match analysis {
        AnyAnalysis::Calls(calls) => out.put(lines::unmatched(calls.unmatched()).as_bytes()),
        AnyAnalysis::Cover(coverage) => cover_more(coverage, out),
        AnyAnalysis::Heap(_) | AnyAnalysis::Taint(_) | AnyAnalysis::Locks(_) => Ok(()),
    }
}

// Of coverage: the number of pc values, and the ranges.
#[tactic(auto, unfolding(analysis_model::specs::Report::ranges_text))]
fn cover_more<O: Sink>(coverage: &Coverage, out: &mut O) -> Result<(), Failed>
    ensures ok { OnOk result (Writes O.told out.old out.new
        (ranges_text (length (pcs_now coverage.now)) (ranges_now coverage.now))) }
    ensures err { OnErr result (WritesPart O.told out.old out.new
        (ranges_text (length (pcs_now coverage.now)) (ranges_now coverage.now))) }
{
    out.put(lines::pcs(coverage.pcs(), coverage.ranges()).as_bytes())?;
    put_ranges(coverage, out)
}

// The lines of the first 64 ranges.
fn put_ranges<O: Sink>(coverage: &Coverage, out: &mut O) -> Result<(), Failed>
    ensures ok { OnOk result (Writes O.told out.old out.new
        (flat_map range_line (take 64 (ranges_now coverage.now)))) }
    ensures err { OnErr result (WritesPart O.told out.old out.new
        (flat_map range_line (take 64 (ranges_now coverage.now)))) }
{
    for index in 0..coverage.ranges().min(64) {
        out.put(shown_range(coverage, index).as_bytes())?;
    }
    Ok(())
}

// The line of one of the first 64 ranges.
fn shown_range(coverage: &Coverage, index: u64) -> Line
    requires there { index < length (ranges_now coverage.now) }
    requires shown { index < 64 }
    ensures { result
        ≡ range_line (slice_index_or (take 64 (ranges_now coverage.now)) index
        (record { from = 0; to = 0 })) }
{
    let (from, to) = coverage.range(index);
    lines::range(from, to)
}
