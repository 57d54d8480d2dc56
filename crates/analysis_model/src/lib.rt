//! The definitions of the five analyses and of the report's lines, and what the report's head tells.
#![tactic(auto)]

mod facts;

pub use facts::RunFacts;
