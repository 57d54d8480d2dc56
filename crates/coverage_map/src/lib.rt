//! Coverage: which words of RAM a run has executed, and what it executed outside the guest's code.
#![tactic(auto)]

mod area;
mod coverage;
mod ranges;
#[cfg(test)]
mod tests;

pub use coverage::Coverage;
