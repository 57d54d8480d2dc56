//! A byte of state beside each byte of RAM: painted by ranges, read by address, searched for bits.
#![tactic(auto)]

mod shadow;
#[cfg(test)]
mod tests;

pub use shadow::Shadow;
