//! Locks: who holds which, and whether the bytes that they guard are touched without them.
#![tactic(auto)]

mod guard;
mod lock;
mod locks;
#[cfg(test)]
mod tests;

pub use locks::Locks;
