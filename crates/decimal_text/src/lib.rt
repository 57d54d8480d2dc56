//! Decimal numbers, as a script and the words of a command line have them.
#![tactic(auto)]

mod number;

pub use number::{is_number, number_in};
