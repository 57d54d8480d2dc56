//! Scripts: reading a script file, and the canonical text of a script.
#![tactic(auto)]

mod bytes;
mod draft;
mod fault;
mod hex;
mod line;
mod number;
mod reading;
mod script;
mod text;
mod writing;

pub use bytes::Bytes;
pub use fault::ScriptFault;
pub use reading::parse;
pub use script::{Entry, Script, Span, What};
pub use writing::print;

#[cfg(test)]
mod tests;
