//! The output that waits until it may be shown: released in order below a step, withheld from a step on.
#![tactic(auto)]

mod gate;
#[cfg(test)]
mod tests;

pub use gate::{GateFull, OutputGate, ROOM, SinkFault};
