//! The replay of a guest: a hart without devices that is fed a list of records, and says where the list does not fit.
#![tactic(auto)]

mod replay;
#[cfg(test)]
mod tests;

pub use replay::Replay;
pub use run_events::{Diverged, Why};
