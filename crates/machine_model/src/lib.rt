//! The definitions of images, scripts and the board.
#![tactic(auto)]
