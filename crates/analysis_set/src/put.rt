//! One line after another, into a sink.
ghost use Rattle.std.specs.Prelude.{is_err, ◌≤◌, OnOk, OnErr};
ghost use Rattle.std.specs.List.{concat, flat_map};
ghost use Rattle.after_edge.specs.Sink.{Writes, WritesPart};
ghost use Rattle.analysis_model.specs.Report.{finding_line};

use crate::lines;
use after_edge::{Failed, Sink};
use run_events::{Finding, Kind};
use text_line::Line;

// Each of the lines, in order.
pub(crate) fn put_lines<O: Sink>(all: &[Line], out: &mut O) -> Result<(), Failed>
    ensures ok { OnOk result (Writes O.told out.old out.new (concat all.now)) }
    ensures err { OnErr result (WritesPart O.told out.old out.new (concat all.now)) }
{
    for line in all {
        out.put(line.as_bytes())?;
    }
    Ok(())
}

// The lines of an analysis' findings.
pub(crate) fn put_findings<O: Sink>(
    kind: Kind,
    found: &[Finding],
    out: &mut O,
) -> Result<(), Failed>
    ensures ok { OnOk result
        (Writes O.told out.old out.new (flat_map (finding_line kind) found.now)) }
    ensures err { OnErr result
        (WritesPart O.told out.old out.new (flat_map (finding_line kind) found.now)) }
{
    for finding in found {
        out.put(lines::finding(kind, finding).as_bytes())?;
    }
    Ok(())
}
