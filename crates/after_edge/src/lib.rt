//! The outside of a run: sinks that take bytes, files that give them, fakes in memory and adapters of the host.
#![tactic(auto)]

mod entries;
mod entry;
mod files;
mod memory_files;
mod memory_sink;
mod reading;
mod reserved;
mod sink;
mod std_files;
mod std_sink;

pub use files::{Files, ReadFault};
pub use memory_files::MemoryFiles;
pub use memory_sink::MemorySink;
pub use reading::{FileFault, read_all};
pub use sink::{Failed, Sink};
pub use std_files::StdFiles;
pub use std_sink::StdSink;

#[cfg(test)]
mod tests;
