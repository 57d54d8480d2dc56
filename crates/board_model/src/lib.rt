//! The board beside the hart, as runs see it.
#![tactic(auto)]
