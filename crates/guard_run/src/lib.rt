//! The run of a job by turns: a recorder, a replica for each of its analyses, and what stands when it is over.
#![tactic(auto)]

mod closing;
mod job;
mod parts;
mod replica;
mod turns;

pub use closing::Closing;
pub use job::RunJob;
pub use parts::Parts;
pub use replica::Replica;
pub use turns::run_turns;
