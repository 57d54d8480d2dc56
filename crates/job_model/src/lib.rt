//! A job: what is run, and what its run comes to.
#![tactic(auto)]
