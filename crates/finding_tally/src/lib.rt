//! What an analysis keeps of its findings: the first step, their number, and the first 64.
#![tactic(auto)]

mod tally;
#[cfg(test)]
mod tests;

pub use tally::Tally;
