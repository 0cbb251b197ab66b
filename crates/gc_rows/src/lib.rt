//! Worked rows: scripts with the words that play them and what comes of it, tried on the top call over a
//! source and sinks in memory.
//!
//! A row is data: a name that says what it shows, the script, the words, the output, the line on standard
//! error and the status, and where wanted the calls of the source and of the output that fail, or the lines that a gate
//! holds back. All values
//! are worked out by hand from the rules. A row is added by adding its data to the table in the tests. In
//! memory all bytes are told, so the theorem of the top call speaks of them plainly.
#![tactic(auto)]

mod memory;

pub use memory::run_in_memory;

#[cfg(test)]
mod built;
#[cfg(test)]
mod collections;
#[cfg(test)]
mod commands;
#[cfg(test)]
mod doubles;
#[cfg(test)]
mod failures;
#[cfg(test)]
mod full;
#[cfg(test)]
mod naming;
#[cfg(test)]
mod options;
#[cfg(test)]
mod refusals;
#[cfg(test)]
mod row;
#[cfg(test)]
mod sizes;
#[cfg(test)]
mod steps;
#[cfg(test)]
mod tests;
#[cfg(test)]
mod workers;
