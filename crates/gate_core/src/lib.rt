//! The records of a run as its readers take them, the verdicts that they post, and what a gate may release.
#![tactic(auto)]

mod core_law;
mod full;
mod hub;
mod hub_law;
mod take;
#[cfg(test)]
mod tests;
mod verdict;

pub use core_law::{
    core_releases_all, core_rests_finished, core_stays_sound, core_takes_nothing_back,
};
pub use full::Full;
pub use hub::Hub;
pub use hub_law::hub_follows_core;
pub use take::Take;
pub use verdict::Verdict;
