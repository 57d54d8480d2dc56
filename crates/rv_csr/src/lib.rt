//! The control and status registers of machine mode: what each reads, what a write keeps, and traps.
#![tactic(auto)]

pub mod addresses;
pub mod causes;
mod counters;
mod csrs;
mod table;
mod traps;

pub use csrs::Csrs;
