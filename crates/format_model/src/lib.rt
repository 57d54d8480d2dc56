//! Formats: which bytes are which script and which image, each with the first fault of those that are none.
#![tactic(auto)]
