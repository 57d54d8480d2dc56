//! The recorder: a guest beside its board, whose run is handed out record by record.
#![tactic(auto)]

mod machine;
mod phase;
#[cfg(test)]
mod tests;
mod told;

pub use any_machine::Advance;
pub use machine::Machine;
