//! The meaning of the heap: a graph of objects that is never reclaimed, and what every call answers in it.
//!
//! Mutators make calls, and each call has a reply. In the graph an object keeps its number for ever, a
//! slot names an object or nothing, and each mutator has sixteen registers. What a call does and answers
//! is a function of the world before it, but for one choice that is the heap's: whether a new object has
//! room. A history is the list of calls with their replies and of collections. `World` is the slow plain
//! program that computes the answers; a heap is to give the same ones.
#![tactic(auto)]

mod call;
mod entry;
mod laws;
mod reg;
mod reply;
#[cfg(test)]
mod tests;
mod turns;
mod world;

pub use call::{Call, Line};
pub use entry::{Entry, RunKind, RunReport};
pub use laws::{each_name_is_an_objects, each_object_is_well_typed, no_object_is_taken_away};
pub use reg::Reg;
pub use reply::Reply;
pub use turns::{CallTurn, Turns};
pub use world::{Live, World};
