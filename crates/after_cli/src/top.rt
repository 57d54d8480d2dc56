//! The top call, and what it answers.
ghost use Rattle.memory_map.specs.declared.TheConstants.{MOST_DISK_BYTES};
ghost use Rattle.std.specs.Prelude.{◌≡◌, ◌+◌, ◌*◌, ◌≤◌, ◌↔◌, List, ℕ, Some, None, IfOk, MatchResult, length, map, string_bytes, unwrap_or};
ghost use Rattle.after_edge.specs.Fault.{Rose};
ghost use Rattle.after_edge.specs.Files.{Contents};
ghost use Rattle.command_words.specs.Jobs.{first_bad_in, job_in};
ghost use Rattle.command_words.specs.declared.fault.WordsFault.TheVariants.{Word};
ghost use Rattle.command_words.specs.Sound.{IsSoundRun};
ghost use Rattle.command_words.specs.Says.{run_said};
ghost use Rattle.refusals.specs.Lines.{output_failed_line, refusal_line};
ghost use Rattle.refusals.specs.Status.{status_of};
ghost use Rattle.format_model.specs.ImageFile.{ImageFits};
ghost use Rattle.machine_model.specs.Board.{AreMarked, IsPlayable};
ghost use Rattle.run_inputs.specs.Read.{given_by};
ghost use Rattle.after_cli.specs.Asked.{AreNoJob, AskForNoRun, AsksForMore, IsAsked, IsNoRun, job_for};
ghost use Rattle.after_cli.specs.JobEnds.{JobEnds};
ghost use Rattle.after_cli.specs.Ends.{Ends, TellsLine};
ghost use Rattle.after_cli.specs.Exact.{IsRight};
ghost use Rattle.after_cli.specs.Means.{Concludes, EndsFlushed, ShowsText, Means};

use crate::running::{JobEnd, run_job};
use after_edge::{Failed, Files, Sink};
use command_words::{Command, RunWords, WordsFault, first_bad_before, read_words};
use guard_run::{Closing, RunJob};
use memory_map::NoMemory;
use refusals::{Refusal, output_failed};
use run_inputs::{Inputs, read_inputs};
use std::alloc::Global;

/// What a call of the program comes to.
#[derive(Drop)]
pub struct Outcome {
    /// The exit status.
    pub status: u8,
    /// What a run has left; none where no run was opened.
    pub closing: Option<Closing>,
}

// The run that words ask for, on one thread.
fn asked_run(words: &[String]) -> Result<RunWords<'_>, Refusal>
    ensures is { MatchResult result (λ run. IsAsked (map string_bytes words.now) (run_said run))
        (IsNoRun (map string_bytes words.now)) }
    ensures sound { IfOk result (λ run. IsSoundRun (run_said run)) }
{
    let run = match read_words(words) {
        Ok(Command::Run(run)) => run,
        Ok(Command::Record(_)) => return Err(Refusal::NotBuilt),
        Ok(Command::Analyze(_)) => return Err(Refusal::NotBuilt),
        Ok(Command::Show(_)) => return Err(Refusal::NotBuilt),
        Ok(Command::Load(_)) => return Err(Refusal::NotBuilt),
        Err(fault) => return Err(Refusal::Words(fault)),
    };
    if run.threads == 0 {
        Ok(run)
    } else {
        Err(Refusal::NotBuilt)
    }
}

// Runs what words ask for, of what its files give, by the turns that they name.
fn run_asked<O: Sink>(
    alloc: Global,
    run: &RunWords<'_>,
    inputs: Inputs,
    out: &mut O,
) -> Result<JobEnd, NoMemory>
    requires asked { IsSoundRun (run_said run.now) }
    requires fits { ImageFits (1024 * run.now.ram_kib) inputs.image }
    requires playable { IsPlayable inputs.script }
    requires marked { AreMarked inputs.script.entries }
    requires disk { length inputs.disk.items ≤ MOST_DISK_BYTES }
    ensures { JobEnds O.told out.old out.new (job_for (run_said run.now) (given_by inputs))
        run.now.turns result }
{
    let job = RunJob {
        ram_kib: run.ram_kib,
        limit: run.limit,
        cap: run.log,
        kinds: run.kinds,
        required: run.required,
    };
    run_job(alloc, &job, run.turns.letters(), inputs, out)
}

// Reads the files of a run and runs it.
fn answer_run<F: Files, O: Sink>(
    alloc: Global,
    run: &RunWords<'_>,
    files: &mut F,
    out: &mut O,
) -> Result<JobEnd, Refusal>
    requires { IsSoundRun (run_said run.now) }
    ensures means { (words : List (List ℕ)) → IsAsked words (run_said run.now) →
        Means (F.content files.old) words (F.faults files.old) (F.faults files.new)
        O.told out.old out.new result }
    ensures same { F.content files.new ≡ F.content files.old }
{
    let inputs = match read_inputs(alloc, files, run.image, run.script, run.disk, run.ram_kib) {
        Ok(inputs) => inputs,
        Err(fault) => return Err(Refusal::Inputs(fault)),
    };
    match run_asked(alloc, run, inputs, out) {
        Ok(end) => Ok(end),
        Err(_) => Err(Refusal::NoMemory),
    }
}

// Judges the words, and does what they ask for.
fn answer_words<F: Files, O: Sink>(
    alloc: Global,
    words: &[String],
    files: &mut F,
    out: &mut O,
) -> Result<JobEnd, Refusal>
    ensures means { Means (F.content files.old) (map string_bytes words.now)
        (F.faults files.old) (F.faults files.new) O.told out.old out.new result }
    ensures untouched { AskForNoRun (map string_bytes words.now) → files.new ≡ files.old }
    ensures same { F.content files.new ≡ F.content files.old }
{
    match asked_run(words) {
        Ok(run) => answer_run(alloc, &run, files, out),
        Err(refusal) => Err(refusal),
    }
}

/// The end of a call that does nothing, for this reason, whose line it writes. A failure to write it changes nothing else.
pub fn end_with<E: Sink>(refusal: Refusal, err: &mut E) -> Outcome
    ensures status { result.status ≡ status_of refusal }
    ensures closing { result.closing ≡ None }
    ensures told { TellsLine E.told err.old err.new (refusal_line refusal) }
{
    let _ = err.put(refusal.line().as_bytes());
    Outcome {
        status: refusal.status(),
        closing: None,
    }
}

// The end of a call whose output failed: it writes the line that says so.
fn end_failed<E: Sink>(closing: Option<Closing>, err: &mut E) -> Outcome
    ensures status { result.status ≡ 6 }
    ensures closing { result.closing ≡ closing }
    ensures told { TellsLine E.told err.old err.new output_failed_line }
{
    let _ = err.put(output_failed().as_bytes());
    Outcome { status: 6, closing }
}

/// The end of a call that has put a text of its own, by what the put came to: status 0, or 6 and its line.
pub fn end_shown<E: Sink>(shown: Result<(), Failed>, err: &mut E) -> Outcome
    ensures { ShowsText shown E.told err.old err.new result }
{
    match shown {
        Ok(()) => Outcome {
            status: 0,
            closing: None,
        },
        Err(Failed) => end_failed(None, err),
    }
}

/// The end of a call once its output was flushed, by what the flush came to: as it was, or 6 and its line where the flush
/// failed and no put had.
pub fn end_flushed<E: Sink>(ended: Outcome, flushed: Result<(), Failed>, err: &mut E) -> Outcome
    ensures { EndsFlushed ended flushed E.told err.old err.new result }
{
    match flushed {
        Err(Failed) if ended.status != 6 => end_failed(ended.closing, err),
        _ => ended,
    }
}

// The end of a call with this answer.
fn end_answer<E: Sink>(answer: Result<JobEnd, Refusal>, err: &mut E) -> Outcome
    ensures { Concludes answer E.told err.old err.new result }
{
    match answer {
        Ok(JobEnd::Done { status, closing }) => Outcome {
            status,
            closing: Some(closing),
        },
        Ok(JobEnd::OutputFailed { closing }) => end_failed(Some(closing), err),
        Err(refusal) => end_with(refusal, err),
    }
}

/// What is wrong with words of which one is no text, by the words before that one: the first of them that is bad by itself,
/// or else the one that is no text.
pub fn refusal_before(words: &[String]) -> Refusal
    ensures { result ≡ Refusal.Words
        (Word (unwrap_or (first_bad_in (map string_bytes words.now)) (length words.now + 1))) }
{
    let number = match first_bad_before(words) {
        Some(number) => number,
        None => words.len() as u32 + 1,
    };
    Refusal::Words(WordsFault::Word { number })
}

/// The program on one thread: the words of a command line, and the files and sinks of its outside.
///
/// It does each `run` on one thread: the guest's output goes to `out` up to the first step that a required analysis
/// refuses, then the report. It always returns.
///
/// - 0, 1, 8: the run was done, and `out` got the job's whole text. 0 after power with no finding, 1 with a finding, 8 after
///   the step limit with no finding.
/// - 2: the words are no job.
/// - 3: the image is refused or too long, or the disk is too long.
/// - 4: the script is refused or too long.
/// - 5: a file is absent, or `files` failed.
/// - 6: a put of `out` failed, and its count of faults rose. Some prefix of the job's text was added.
/// - 9: no memory, for a run whose image is there; no clause says that the allocator refused any.
/// - 10: the words are a job that is not built: of another command, or with threads.
///
/// The words are judged first, then what is not built, then the files. With each status but 0, 1, 8 and 6, nothing was
/// added to `out`, and there is no `closing`. `closing` holds the one log and what the replicas have made of it. After a
/// failed put the log was closed where it stood, and each replica has read to the close.
///
/// A refusal, and status 6, writes its line on `err`; a failure of `err` changes no answer. The files' content is as before,
/// and so is their count of faults where none of their calls failed; where the words are refused they are not called.
pub fn aftersight_plain<F: Files, O: Sink, E: Sink>(
    alloc: Global,
    words: &[String],
    files: &mut F,
    out: &mut O,
    err: &mut E,
) -> Outcome
    // What the call comes to, each with all that stands then, and with its cause.
    ensures ends { Ends (record {
      words = map string_bytes words.now;
      content = F.content files.old;
      faults = F.faults files.old;
      faults_after = F.faults files.new;
      out = O.told;
      old = out.old;
      new = out.new;
      err = E.told;
      err_old = err.old;
      err_new = err.new;
    }) result }

    // Where the files tell what they are, and neither they nor the output fail, it comes to what the definitions say of the
    // words and the files, or to no memory.
    ensures exact { (told : Contents) → F.content files.old ≡ Some told
        → ¬ Rose (F.faults files.old) (F.faults files.new)
        → ¬ Rose (O.told.faults out.old) (O.told.faults out.new)
        → IsRight O.told out.old out.new result told (job_in (map string_bytes words.now)) }

    // Words alone decide on these two.
    ensures words { (result.status ≡ 2) ↔ AreNoJob (map string_bytes words.now) }
    ensures not_built { (result.status ≡ 10) ↔ AsksForMore (map string_bytes words.now) }

    // They are judged before any file is asked for: with these statuses the files are just as before.
    ensures untouched { AskForNoRun (map string_bytes words.now) → files.new ≡ files.old }

    ensures files { F.content files.new ≡ F.content files.old }
{
    let answer = answer_words(alloc, words, files, out);
    end_answer(answer, err)
}
