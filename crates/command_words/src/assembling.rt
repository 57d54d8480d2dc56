//! Commands, made of the words that were read.
ghost use Rattle.std.specs.Prelude.{◌≡◌, ◌||◌, [], length, nat_lt, not, option_copied, option_map};
ghost use Rattle.std.specs.List.{list_all};
ghost use Rattle.run_settings.specs.Kinds.{has_kind};
ghost use Rattle.command_words.specs.Drafts.{held, plain_held, seen};
ghost use Rattle.command_words.specs.Values.{kinds};
ghost use Rattle.command_words.specs.Says.{GivesJob, analyze_said, load_said, record_said};
ghost use Rattle.command_words.specs.Table.{plain_count};
ghost use Rattle.command_words.specs.Jobs.{chosen, crossed_required, analyze_job, crossed_turns, disk, is_best, job_of, load_job, log, named_required, ram, record_job, required, run_of, steps, threads, turns, word_if};

use crate::command::{AnalyzeWords, Command, LoadWords, RecordWords, RunWords, ShowWords};
use crate::draft::{Draft, Given};
use crate::fault::WordsFault;
use crate::table::{CommandName, Setting};
use crate::value::{
    best_in, kinds_in, log_in, ram_in, required_in, seed_in, size_in, steps_in, threads_in,
    turns_in,
};
use run_events::Kind;
use run_settings::{Kinds, Turns};

// The size of RAM in KiB, the most steps and the places of the log where no word says them.
const DEFAULT_RAM_KIB: u32 = 1024;

const DEFAULT_STEPS: u32 = 10_000_000;

const DEFAULT_LOG: u32 = 1024;

// All analyses.
fn all_kinds() -> Kinds
    ensures { result ≡ kinds }
{
    let mut kinds = Kinds::new();
    kinds.add(Kind::Heap);
    kinds.add(Kind::Taint);
    kinds.add(Kind::Calls);
    kinds.add(Kind::Cover);
    kinds.add(Kind::Locks);
    kinds
}

// Whether the mode is best effort.
fn is_best(draft: &Draft<'_>) -> bool
    ensures { result ≡ is_best (held draft.now) }
{
    match draft.value(Setting::Mode) {
        Some(given) => best_in(given.text).unwrap_or(false),
        None => false,
    }
}

// The analyses that are named, or all.
fn chosen_kinds(draft: &Draft<'_>) -> Kinds
    ensures { result ≡ chosen (held draft.now) }
{
    match draft.value(Setting::With) {
        Some(given) => kinds_in(given.text).unwrap_or(all_kinds()),
        None => all_kinds(),
    }
}

// The analyses that are named as required, or all that are chosen.
fn named_required(draft: &Draft<'_>) -> Kinds
    ensures { result ≡ named_required (held draft.now) }
{
    match draft.value(Setting::Require) {
        Some(given) => required_in(given.text).unwrap_or(chosen_kinds(draft)),
        None => chosen_kinds(draft),
    }
}

// The analyses that have to approve; in best-effort mode none has to.
fn required_kinds(draft: &Draft<'_>) -> Kinds
    ensures { result ≡ required (held draft.now) }
{
    if is_best(draft) {
        Kinds::new()
    } else {
        named_required(draft)
    }
}

fn threads(draft: &Draft<'_>) -> u32
    ensures { result ≡ threads (held draft.now) }
{
    match draft.value(Setting::Threads) {
        Some(given) => threads_in(given.text).unwrap_or(0),
        None => 0,
    }
}

fn ram(draft: &Draft<'_>) -> u32
    ensures { result ≡ ram (held draft.now) }
{
    match draft.value(Setting::Ram) {
        Some(given) => ram_in(given.text).unwrap_or(DEFAULT_RAM_KIB),
        None => DEFAULT_RAM_KIB,
    }
}

fn steps(draft: &Draft<'_>) -> u32
    ensures { result ≡ steps (held draft.now) }
{
    match draft.value(Setting::Steps) {
        Some(given) => steps_in(given.text).unwrap_or(DEFAULT_STEPS),
        None => DEFAULT_STEPS,
    }
}

fn log(draft: &Draft<'_>) -> u32
    ensures { result ≡ log (held draft.now) }
{
    match draft.value(Setting::Log) {
        Some(given) => log_in(given.text).unwrap_or(DEFAULT_LOG),
        None => DEFAULT_LOG,
    }
}

fn disk<'a>(draft: &Draft<'a>) -> Option<&'a str>
    ensures { option_copied result ≡ disk (held draft.now) }
{
    match draft.value(Setting::Disk) {
        Some(given) => Some(given.text),
        None => None,
    }
}

fn turns(draft: &Draft<'_>) -> Turns
    ensures { result ≡ turns (held draft.now) }
{
    let plain = Turns::plain(chosen_kinds(draft).len());
    match draft.value(Setting::Turns) {
        Some(given) => turns_in(given.text).unwrap_or(plain),
        None => plain,
    }
}

// Whether required analyses are named in best-effort mode, or one of them is not chosen.
#[tactic(auto, unfolding(crate::specs::Jobs::crossed_required))]
fn crossed_required(draft: &Draft<'_>) -> bool
    ensures { result ≡ crossed_required (held draft.now) }
{
    is_best(draft) || !are_among(&named_required(draft), &chosen_kinds(draft))
}

// Whether each kind of the first list is in the second.
fn are_among(kinds: &Kinds, others: &Kinds) -> bool
    ensures { result ≡ list_all (has_kind others.now) kinds.now }
{
    for index in 0..kinds.len() {
        if !others.contains(kinds.get(index)) {
            return false;
        }
    }
    true
}

// Whether turns that are a pattern, or none, do not go with so many threads.
fn are_crossed(threads: u32, is_pattern: bool) -> bool
    ensures { result ≡ (nat_lt 0 threads || not is_pattern) }
{
    threads > 0 || !is_pattern
}

// Whether turns do not go with the threads, or are no pattern for the chosen analyses.
#[tactic(auto, unfolding(crate::specs::Jobs::crossed_turns))]
fn crossed_turns(draft: &Draft<'_>) -> bool
    ensures { result ≡ crossed_turns (held draft.now) }
{
    are_crossed(
        threads(draft),
        turns(draft).is_pattern(chosen_kinds(draft).len()),
    )
}

// The number of an option's value, where it stands and does not go with the others.
fn word_if(crossed: bool, given: Option<Given<'_>>) -> Option<u32>
    ensures { result ≡ word_if crossed (option_map seen given.entry) }
{
    match given {
        Some(given) if crossed => Some(given.number),
        _ => None,
    }
}

#[tactic(auto, unfolding(crate::specs::Jobs::run_of))]
fn run_of<'a>(draft: &Draft<'a>) -> Result<Command<'a>, WordsFault>
    requires { length (plain_held draft.now) ≡ 2 }
    ensures { GivesJob result (run_of (held draft.now) (plain_held draft.now)) }
{
    match word_if(crossed_required(draft), draft.value(Setting::Require)) {
        Some(number) => return Err(WordsFault::Word { number }),
        None => {}
    }
    match word_if(crossed_turns(draft), draft.value(Setting::Turns)) {
        Some(number) => return Err(WordsFault::Word { number }),
        None => {}
    }
    Ok(Command::Run(RunWords {
        image: draft.plain_word(0),
        script: draft.plain_word(1),
        disk: disk(draft),
        ram_kib: ram(draft),
        limit: steps(draft),
        log: log(draft),
        kinds: chosen_kinds(draft),
        required: required_kinds(draft),
        threads: threads(draft),
        turns: turns(draft),
    }))
}

fn record_of<'a>(draft: &Draft<'a>) -> RecordWords<'a>
    requires { length (plain_held draft.now) ≡ 3 }
    ensures { record_said result ≡ record_job (held draft.now) (plain_held draft.now) }
{
    RecordWords {
        image: draft.plain_word(0),
        script: draft.plain_word(1),
        log_file: draft.plain_word(2),
        disk: disk(draft),
        ram_kib: ram(draft),
        limit: steps(draft),
    }
}

fn analyze_of<'a>(draft: &Draft<'a>) -> AnalyzeWords<'a>
    requires { length (plain_held draft.now) ≡ 2 }
    ensures { analyze_said result ≡ analyze_job (held draft.now) (plain_held draft.now) }
{
    AnalyzeWords {
        image: draft.plain_word(0),
        log_file: draft.plain_word(1),
        kinds: chosen_kinds(draft),
    }
}

fn load_of(draft: &Draft<'_>) -> LoadWords
    requires { length (plain_held draft.now) ≡ 2 }
    ensures { load_said result ≡ load_job (held draft.now) (plain_held draft.now) }
{
    LoadWords {
        seed: seed_in(draft.plain_word(0)).unwrap_or(0),
        size: size_in(draft.plain_word(1)).unwrap_or(1),
        log: log(draft),
        threads: threads(draft),
    }
}

// The command, where all its plain words stand.
#[tactic(auto, unfolding(crate::specs::Jobs::job_of))]
pub(crate) fn command_of<'a>(
    command: CommandName,
    draft: &Draft<'a>,
) -> Result<Command<'a>, WordsFault>
    requires { length (plain_held draft.now) ≡ plain_count command }
    ensures { GivesJob result (job_of command (held draft.now) (plain_held draft.now)) }
{
    match command {
        CommandName::Run => run_of(draft),
        CommandName::Record => Ok(Command::Record(record_of(draft))),
        CommandName::Analyze => Ok(Command::Analyze(analyze_of(draft))),
        CommandName::Show => Ok(Command::Show(ShowWords {
            log_file: draft.plain_word(0),
        })),
        CommandName::Load => Ok(Command::Load(load_of(draft))),
    }
}
