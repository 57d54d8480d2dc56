//! The definitions of the hart: its operations, its state, what it fetches, and its open step.
#![tactic(auto)]
