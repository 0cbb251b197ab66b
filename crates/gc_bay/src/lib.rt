//! What one mutator owns beside the words of the heap.
//!
//! A bay holds everything by which a mutator allocates and is collected: its sixteen registers, which of its two
//! semispace halves is the current one and how much of that is used, the cells of its pages, the remembered list
//! and the grey list, a batch of slots for each owner, and a tally of what a collection keeps. It knows where the
//! mutator's words lie, and never touches a word. So a bay can be handed from thread to thread while the words
//! stay shared.
//!
//! All memory is taken when a bay is made. Each list has room for as many entries as a heap of its layout can
//! bring, so nothing is ever full by surprise and nothing is tested for it.
#![tactic(auto)]

mod batch;
mod bay;
#[cfg(test)]
mod tests;

pub use batch::Batch;
pub use bay::{Bay, Reg16};
