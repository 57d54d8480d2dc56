//! Why a call of the program does nothing, each with its status and the line that tells it.
#![tactic(auto)]

mod lines;
mod refusal;

pub use lines::output_failed;
pub use refusal::Refusal;
