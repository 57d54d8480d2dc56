//! Commands with all that their words say.

use run_settings::{Kinds, Turns};

/// A run: its files, and what is asked of it.
#[derive(Drop)]
pub struct RunWords<'a> {
    /// The file of the guest.
    pub image: &'a str,
    /// The file of the script.
    pub script: &'a str,
    /// The file of the disk, if there is one.
    pub disk: Option<&'a str>,
    /// The size of RAM in KiB, 64 to 16384.
    pub ram_kib: u32,
    /// The most steps, 1 to 1000000000.
    pub limit: u32,
    /// How many places the log has: a power of two from 16 to 65536.
    pub log: u32,
    /// The analyses in the order of the report: one at least.
    pub kinds: Kinds,
    /// Those of them that have to approve. In best-effort mode none has to.
    pub required: Kinds,
    /// How many threads, at most 8.
    pub threads: u32,
    /// The turns on one thread.
    pub turns: Turns,
}

/// A run that is recorded.
#[derive(Drop)]
pub struct RecordWords<'a> {
    /// The file of the guest.
    pub image: &'a str,
    /// The file of the script.
    pub script: &'a str,
    /// The file that the log is written to.
    pub log_file: &'a str,
    /// The file of the disk, if there is one.
    pub disk: Option<&'a str>,
    /// The size of RAM in KiB, 64 to 16384.
    pub ram_kib: u32,
    /// The most steps, 1 to 1000000000.
    pub limit: u32,
}

/// Analyses of a recorded run.
#[derive(Drop)]
pub struct AnalyzeWords<'a> {
    /// The file of the guest.
    pub image: &'a str,
    /// The file of the log.
    pub log_file: &'a str,
    /// The analyses in the order of the report: one at least.
    pub kinds: Kinds,
}

/// The records of a log as text.
#[derive(Drop)]
pub struct ShowWords<'a> {
    /// The file of the log.
    pub log_file: &'a str,
}

/// A run of a guest that is made from a number.
#[derive(Drop)]
pub struct LoadWords {
    /// The number that the guest is made from.
    pub seed: u32,
    /// How many parts the guest has, 1 to 100000.
    pub size: u32,
    /// How many places the log has: a power of two from 16 to 65536.
    pub log: u32,
    /// How many threads, at most 8.
    pub threads: u32,
}

/// A command with all that its words say.
#[derive(Drop)]
pub enum Command<'a> {
    /// `run`: a run under analyses.
    Run(RunWords<'a>),
    /// `record`: a run whose log is written to a file.
    Record(RecordWords<'a>),
    /// `analyze`: the analyses of a run whose log is in a file.
    Analyze(AnalyzeWords<'a>),
    /// `show`: the log in a file, as text.
    Show(ShowWords<'a>),
    /// `load`: a run of a guest that is made.
    Load(LoadWords),
}
