//! The replay of any hart: it is fed a list of records, and says where the list does not fit.
#![tactic(auto)]

mod fault;
mod replay;
mod running;
mod standing;
#[cfg(test)]
mod tests;

pub use replay::Replay;
