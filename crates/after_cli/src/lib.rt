//! The top call: from the words of a command line to the text, the report and the status.
#![tactic(auto)]

mod running;
mod top;

pub use top::{Outcome, aftersight_plain, end_flushed, end_shown, end_with, refusal_before};
