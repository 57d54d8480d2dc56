//! Words and lemmas on lists that several crates cite.
#![tactic(auto)]
