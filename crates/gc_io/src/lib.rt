//! Sources, sinks and gates: the edge between the program and the outside.
//!
//! A source gives bytes, a sink takes them, and each counts its faults. What a source has left and what
//! a sink has got are part of their meaning where they tell them, so that a contract above can say which
//! bytes were read and written. Sources and sinks in memory tell them, and can be made to fail at chosen
//! calls. Those over std's readers and writers tell nothing, since no contract can say what a file or a
//! terminal holds. A sink that only counts tells no bytes, but how many there were. A gate lets a worker's
//! lines pass or holds them back; the two that hold lines back are for tests.
#![tactic(auto)]

mod failing;
mod gate;
#[cfg(test)]
mod gate_tests;
mod hold_gate;
mod meet_gate;
mod memory_sink;
mod memory_source;
mod sink;
mod source;
mod std_sink;
mod std_source;
mod steady_source;
mod tally_sink;
#[cfg(test)]
mod tests;
mod unread;
mod watch;

pub use gate::{Gate, OpenGate};
pub use hold_gate::HoldGate;
pub use meet_gate::MeetGate;
pub use memory_sink::MemorySink;
pub use memory_source::MemorySource;
pub use sink::{Put, Sink};
pub use source::{Source, Taken};
pub use std_sink::StdSink;
pub use std_source::StdSource;
pub use steady_source::SteadySource;
pub use tally_sink::TallySink;
pub use watch::Hold;

/// Want of memory.
#[derive(Clone, Copy, Debug, PartialEq, Eq)]
pub struct NoMemory;
