//! Whole runs of the program over files and sinks in memory, with answers worked out by hand.
#![tactic(auto)]

#[cfg(test)]
mod guests;
#[cfg(test)]
mod headed;
#[cfg(test)]
mod program;
#[cfg(test)]
mod refused;
#[cfg(test)]
mod runs;
#[cfg(test)]
mod sinks;
#[cfg(test)]
mod texts;
