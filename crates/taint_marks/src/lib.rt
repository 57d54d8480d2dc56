//! Marked input: which registers and bytes of RAM hold what came from it, and where that goes wrong.
#![tactic(auto)]

mod taint;
#[cfg(test)]
mod tests;

pub use taint::Taint;
