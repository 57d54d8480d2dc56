//! Each line of the report.
ghost use Rattle.std.specs.Prelude.{◌≡◌, ◌+◌, ◌≤◌, ◌++◌, Option, Some, None, length};
ghost use Rattle.analysis_model.specs.Report.{line, title_line, steps_line, end_line, output_line, records_line, kind_name, finding_name, step_text, findings_line, pcs_line, range_line, finding_line, unmatched_line};
ghost use Rattle.analysis_model.specs.Cover.{CodeRange};

use run_events::{EndCause, Finding, FindingKind, Kind};
use text_line::Line;

// The first line that is not empty.
#[tactic(auto, unfolding(analysis_model::specs::Report::title_line))]
pub(crate) fn title() -> Line
    ensures { result ≡ title_line }
{
    Line::new().text("== aftersight report").with_line_feed()
}

// How many steps the run had.
#[tactic(auto, unfolding(analysis_model::specs::Report::steps_line))]
pub(crate) fn steps(steps: u32) -> Line
    ensures { result ≡ steps_line steps }
{
    Line::new()
        .text("steps ")
        .number(u64::from(steps))
        .with_line_feed()
}

// Why the run ended.
#[tactic(auto, unfolding(analysis_model::specs::Report::end_line))]
pub(crate) fn end(cause: EndCause) -> Line
    ensures { result ≡ end_line cause }
{
    match cause {
        EndCause::Power { status } => Line::new()
            .text("end power ")
            .number(u64::from(status))
            .with_line_feed(),
        EndCause::Limit => Line::new().text("end limit").with_line_feed(),
    }
}

// How many bytes of output were issued, and how many of them went out.
#[tactic(auto, unfolding(analysis_model::specs::Report::output_line))]
pub(crate) fn output(issued: u32, released: u32) -> Line
    ensures { result ≡ output_line issued released }
{
    Line::new()
        .text("output ")
        .number(u64::from(issued))
        .text(" released ")
        .number(u64::from(released))
        .with_line_feed()
}

// How many records the log had.
#[tactic(auto, unfolding(analysis_model::specs::Report::records_line))]
pub(crate) fn records(items: u64) -> Line
    ensures { result ≡ records_line items }
{
    Line::new().text("records ").number(items).with_line_feed()
}

// The name of an analysis.
#[tactic(auto, unfolding(analysis_model::specs::Report::kind_name))]
fn kind_name(kind: Kind) -> &'static str
    ensures text { result.now ≡ kind_name kind }
    ensures short { length result.now ≤ 5 }
{
    match kind {
        Kind::Heap => "heap",
        Kind::Taint => "taint",
        Kind::Calls => "calls",
        Kind::Cover => "cover",
        Kind::Locks => "locks",
    }
}

// The name of what a finding complains of.
#[tactic(auto, unfolding(analysis_model::specs::Report::finding_name))]
fn finding_name(kind: FindingKind) -> &'static str
    ensures text { result.now ≡ finding_name kind }
    ensures short { length result.now ≤ 10 }
{
    match kind {
        FindingKind::Red => "red",
        FindingKind::Freed => "freed",
        FindingKind::BadFree => "badfree",
        FindingKind::Jump => "jump",
        FindingKind::Leak => "leak",
        FindingKind::Return => "return",
        FindingKind::Outside => "outside",
        FindingKind::Unguarded => "unguarded",
        FindingKind::Reacquire => "reacquire",
        FindingKind::BadRelease => "badrelease",
    }
}

// The line with a step added, or with `none` where there is none.
#[tactic(auto, unfolding(analysis_model::specs::Report::step_text))]
fn with_step(line: Line, step: Option<u32>) -> Line
    requires { length line + 20 ≤ 128 }
    ensures text { result ≡ line ++ step_text step }
    ensures size { length result ≤ length line + 20 }
{
    match step {
        Some(step) => line.number(u64::from(step)),
        None => line.text("none"),
    }
}

// How many findings an analysis has, and the step of the first.
#[tactic(auto, unfolding(analysis_model::specs::Report::findings_line))]
pub(crate) fn findings(kind: Kind, count: u64, first: Option<u32>) -> Line
    ensures { result ≡ findings_line kind count first }
{
    let counted = Line::new()
        .text(kind_name(kind))
        .text(" findings ")
        .number(count)
        .text(" first ");
    with_step(counted, first).with_line_feed()
}

// Of calls: how many returns answer no call.
#[tactic(auto, unfolding(analysis_model::specs::Report::unmatched_line))]
pub(crate) fn unmatched(count: u64) -> Line
    ensures { result ≡ unmatched_line count }
{
    Line::new()
        .text("calls unmatched ")
        .number(count)
        .with_line_feed()
}

// Of coverage: how many pc values were executed, and how many ranges they make up.
#[tactic(auto, unfolding(analysis_model::specs::Report::pcs_line))]
pub(crate) fn pcs(pcs: u64, ranges: u64) -> Line
    ensures { result ≡ pcs_line pcs ranges }
{
    Line::new()
        .text("cover pcs ")
        .number(pcs)
        .text(" ranges ")
        .number(ranges)
        .with_line_feed()
}

// Of coverage: a range, from its first address to the one after its last.
#[tactic(auto, unfolding(analysis_model::specs::Report::range_line))]
pub(crate) fn range(from: u32, to: u32) -> Line
    ensures { result ≡ range_line (record { from = from; to = to }) }
{
    Line::new()
        .text("cover range ")
        .hexadecimal(from)
        .text(" ")
        .hexadecimal(to)
        .with_line_feed()
}

// One finding.
#[tactic(auto, unfolding(analysis_model::specs::Report::finding_line))]
pub(crate) fn finding(kind: Kind, finding: &Finding) -> Line
    ensures { result ≡ finding_line kind finding.now }
{
    Line::new()
        .text(kind_name(kind))
        .text(" ")
        .text(finding_name(finding.kind))
        .text(" at ")
        .number(u64::from(finding.step))
        .text(" pc ")
        .hexadecimal(finding.pc)
        .text(" addr ")
        .hexadecimal(finding.address)
        .with_line_feed()
}
