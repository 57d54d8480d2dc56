//! Calls and returns: whether each return goes back to where its call came from.
#![tactic(auto)]

mod calls;
mod moves;
mod rings;
#[cfg(test)]
mod tests;

pub use calls::Calls;
