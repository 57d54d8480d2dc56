//! A run by turns of any recorder and any followers: the log between them, and the gate that lets the output out.
#![tactic(auto)]

mod close;
mod closing;
mod ending;
mod follower;
mod parts;
mod reading;
mod source;
mod turns;

pub use closing::Closing;
pub use ending::Ending;
pub use follower::Follower;
pub use parts::Parts;
pub use reading::{Turn, read_next};
pub use source::Source;
pub use turns::run_turns;
