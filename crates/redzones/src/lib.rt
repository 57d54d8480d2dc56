//! Redzones: which bytes of RAM the guest's heap uses, and the accesses and frees that it forbids.
#![tactic(auto)]

#[cfg(test)]
mod tests;
mod zones;

pub use zones::Redzones;
