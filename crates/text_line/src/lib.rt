//! One line of text, written into an array: text, decimal numbers, hexadecimal digits, a line feed.
#![tactic(auto)]

mod line;

pub use line::Line;

#[cfg(test)]
mod tests;
