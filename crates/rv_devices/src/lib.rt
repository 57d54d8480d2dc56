//! The board: serial line, timer, disk and power register, driven by a script that it goes through once.
#![tactic(auto)]

mod board;
mod disk;
mod effect;
mod register;
mod schedule;
#[cfg(test)]
mod tests;
mod timer;
mod transfer;

pub use board::Board;
pub use effect::Effect;
