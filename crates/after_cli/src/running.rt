//! A job from its opening to its report.
ghost use Rattle.std.specs.Prelude.{is_err, ◌≡◌, ◌≤◌, ◌++◌, length, IfOk, OnOk, OnErr};
ghost use Rattle.std.specs.List.{flat_map};
ghost use Rattle.after_edge.specs.Sink.{Writes, WritesPart};
ghost use Rattle.analysis_model.specs.Report.{head_text, part_text};
ghost use Rattle.guard_run.specs.Closings.{IsWholeRun};
ghost use Rattle.guard_run.specs.Jobs.{IsRunnable, job_of};
ghost use Rattle.guard_run.specs.Openings.{IsOpened, IsOpenedRun, replicas_in};
ghost use Rattle.job_model.specs.Job.{Job, events, guest};
ghost use Rattle.job_model.specs.Text.{has_finding, report, status, status_of};
ghost use Rattle.run_settings.specs.Patterns.{IsPattern};
ghost use Rattle.after_cli.specs.JobEnds.{IsOver, JobEnds, JobEndsBy};

use after_edge::{Failed, Sink};
use analysis_model::RunFacts;
use analysis_set::{Analysis, report_head, report_part};
use guard_run::{Closing, Parts, RunJob, run_turns};
use memory_map::NoMemory;
use run_events::EndCause;
use run_inputs::Inputs;
use run_settings::Letter;
use std::alloc::Global;

/// What a job came to that was opened.
#[derive(Drop)]
pub enum JobEnd {
    /// The run was done, and the job's whole text was written.
    Done { status: u8, closing: Closing },
    /// A put of the output failed. Some prefix of the job's text was written.
    OutputFailed { closing: Closing },
}

// Writes the parts of so many analyses, which are all, in order.
fn report_parts<O: Sink>(closing: &Closing, count: u32, out: &mut O) -> Result<(), Failed>
    requires { IsOver count closing.now }
    ensures ok { OnOk result ((job : Job) → IsWholeRun job closing.now →
        Writes O.told out.old out.new (flat_map (part_text (guest job) (events job)) job.kinds)) }
    ensures err { OnErr result ((job : Job) → IsWholeRun job closing.now →
        WritesPart O.told out.old out.new
        (flat_map (part_text (guest job) (events job)) job.kinds)) }
{
    for replica in 0..count {
        report_part(closing.analysis(replica), out)?;
    }
    Ok(())
}

// Writes the report of a run that went to its end.
fn write_report<O: Sink>(
    facts: &RunFacts,
    closing: &Closing,
    count: u32,
    out: &mut O,
) -> Result<(), Failed>
    requires { IsOver count closing.now }
    ensures ok { OnOk result ((job : Job) → IsWholeRun job closing.now →
        Writes O.told out.old out.new (head_text facts.now
        ++ flat_map (part_text (guest job) (events job)) job.kinds)) }
    ensures err { OnErr result ((job : Job) → IsWholeRun job closing.now →
        WritesPart O.told out.old out.new (head_text facts.now
        ++ flat_map (part_text (guest job) (events job)) job.kinds)) }
{
    report_head(facts, out)?;
    report_parts(closing, count, out)
}

// Whether one of so many analyses, which are all, has a finding.
fn has_finding(closing: &Closing, count: u32) -> bool
    requires { IsOver count closing.now }
    ensures { (job : Job) → IsWholeRun job closing.now →
        result ≡ has_finding (guest job) (events job) job.kinds }
{
    for replica in 0..count {
        if closing.analysis(replica).first().is_some() {
            return true;
        }
    }
    false
}

// The exit status of a run that ended so, with a finding or with none.
fn status_number(end: EndCause, found: bool) -> u8
    ensures { result ≡ status_of end found }
{
    match (end, found) {
        (_, true) => 1,
        (EndCause::Power { .. }, false) => 0,
        (EndCause::Limit, false) => 8,
    }
}

// Writes the report of a run that went to its end, and answers the status.
fn tell<O: Sink>(closing: &Closing, count: u32, out: &mut O) -> Result<u8, Failed>
    requires { IsOver count closing.now }
    ensures status { IfOk result (λ number. (job : Job) → IsWholeRun job closing.now →
        number ≡ status job) }
    ensures ok { OnOk result ((job : Job) → IsWholeRun job closing.now →
        Writes O.told out.old out.new (report job)) }
    ensures err { OnErr result ((job : Job) → IsWholeRun job closing.now →
        WritesPart O.told out.old out.new (report job)) }
{
    let Some(facts) = closing.facts() else {
        unreachable!()
    };
    write_report(&facts, closing, count, out)?;
    Ok(status_number(facts.end, has_finding(closing, count)))
}

// Takes the turns of a run that was opened, of so many analyses, writes its report, and tells how it ended. No memory is
// taken from here on: there is no allocator to ask.
fn run_opened<O: Sink>(parts: Parts, count: u32, turns: &[Letter], out: &mut O) -> JobEnd
    requires opened { IsOpenedRun parts }
    requires count { count ≡ length (replicas_in parts) }
    requires pattern { IsPattern count turns.now }
    ensures { (job : Job) → IsOpened job parts
        → JobEndsBy O.told out.old out.new job turns.now result }
{
    let mut run = parts;
    let ran = run_turns(&mut run, turns, out);
    let closing = run.finish();
    match ran {
        Ok(()) => {}
        Err(_) => return JobEnd::OutputFailed { closing },
    }
    match tell(&closing, count, out) {
        Ok(status) => JobEnd::Done { status, closing },
        Err(_) => JobEnd::OutputFailed { closing },
    }
}

/// Runs a job by turns of a pattern: its released output and its report go out. It takes memory to open the run, and then
/// none; where there is none to open it, nothing is written.
pub fn run_job<O: Sink>(
    alloc: Global,
    job: &RunJob,
    turns: &[Letter],
    inputs: Inputs,
    out: &mut O,
) -> Result<JobEnd, NoMemory>
    requires runnable { IsRunnable (job_of job.now inputs.image inputs.script inputs.disk.items) }
    requires pattern { IsPattern (length job.now.kinds) turns.now }
    ensures { JobEnds O.told out.old out.new
        (job_of job.now inputs.image inputs.script inputs.disk.items) turns.now result }
{
    let Inputs {
        image,
        script,
        disk,
    } = inputs;
    let parts = Parts::new(alloc, job, &image, script, disk)?;
    Ok(run_opened(parts, job.kinds.len(), turns, out))
}
