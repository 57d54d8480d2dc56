//! Runs, logs and replays of any machine: their definitions and laws, and the traits of a hart and of a recorder in code.
#![tactic(auto)]

mod hart;
mod law;
mod recorder;

pub use hart::Hart;
pub use law::prefix_fits;
pub use recorder::{Advance, Recorder};
