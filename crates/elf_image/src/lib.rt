//! Guest files: what image a file gives.
#![tactic(auto)]

mod elf;
mod fault;
mod image;
mod reading;

pub use fault::ImageFault;
pub use image::{Image, Segment, read_flat};
pub use reading::read;

#[cfg(test)]
mod tests;
