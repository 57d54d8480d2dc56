//! The first six lines of the report.
ghost use Rattle.std.specs.Prelude.{is_err, ◌≤◌, OnOk, OnErr};
ghost use Rattle.after_edge.specs.Sink.{Writes, WritesPart};
ghost use Rattle.analysis_model.specs.Report.{head_text};

use crate::lines;
use crate::put::put_lines;
use after_edge::{Failed, Sink};
use analysis_model::RunFacts;
use text_line::Line;

/// Writes the six lines of the report's head, of which the first is empty.
#[tactic(auto, unfolding(analysis_model::specs::Report::head_text))]
pub fn report_head<O: Sink>(facts: &RunFacts, out: &mut O) -> Result<(), Failed>
    ensures ok { OnOk result (Writes O.told out.old out.new (head_text facts.now)) }
    ensures err { OnErr result (WritesPart O.told out.old out.new (head_text facts.now)) }
{
    let all = [
        Line::new().with_line_feed(),
        lines::title(),
        lines::steps(facts.steps),
        lines::end(facts.end),
        lines::output(facts.issued, facts.released),
        lines::records(facts.items),
    ];
    put_lines(&all, out)
}
