//! Which words are which command.
#![tactic(auto)]

mod assembling;
mod command;
mod draft;
mod fault;
mod number;
mod reading;
mod table;
#[cfg(test)]
mod tests;
mod value;

pub use command::{AnalyzeWords, Command, LoadWords, RecordWords, RunWords, ShowWords};
pub use fault::WordsFault;
pub use reading::{first_bad_before, read_words};
pub use value::{LEAST_LOG, MOST_LOG, MOST_THREADS};
