//! The machine's RAM: a list of bytes from `RAM_START` on, little-endian.
#![tactic(auto)]

mod ram;

pub use ram::Ram;
