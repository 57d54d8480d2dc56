//! The chosen analyses of a run, and the report: its head, and the part of each analysis.
#![tactic(auto)]

mod analysis;
mod any_analysis;
mod head;
mod lines;
mod part;
mod put;

pub use analysis::Analysis;
pub use any_analysis::AnyAnalysis;
pub use head::report_head;
pub use part::report_part;

#[cfg(test)]
mod tests;
