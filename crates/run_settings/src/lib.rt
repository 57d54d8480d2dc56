//! What a run is asked for: which analyses look at it, and in which turns it goes on.
#![tactic(auto)]

mod kinds;
mod letter;
mod turns;

pub use kinds::Kinds;
pub use letter::Letter;
pub use turns::{MOST_TURNS, Turns};
