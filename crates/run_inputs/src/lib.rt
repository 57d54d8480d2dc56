//! The files of a run: each read within its limit, the image and the script judged.
#![tactic(auto)]

mod fault;
mod inputs;
mod reading;

pub use fault::InputFault;
pub use inputs::{Inputs, read_inputs};
