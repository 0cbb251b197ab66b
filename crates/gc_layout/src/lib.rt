//! The layout of the heap: how large an object is, which types there are, what a header word says, and
//! where everything lies.
//!
//! Every object is a header word, a forwarding word, its slots and then its number fields, so its size
//! in words follows from its type's shape alone. The table of types holds the shapes by type number, and
//! type 0 is the common object's. A header word packs the type number and four flags of the collector.
//! The heap is a row of regions, one for each mutator, and who owns an address and what it is there follow
//! from arithmetic alone.
//! The graph and all heaps stand on this crate, and it stands on nothing.
#![tactic(auto)]

mod head;
mod places;
mod shape;
mod sizes;
#[cfg(test)]
mod tests;
mod types;

pub use head::Head;
pub use places::{Part, Places};
pub use shape::{Shape, TypeNo};
pub use sizes::{COMMON_SLOTS, FIRST_SLOT, FORWARDING_WORD, LARGEST_SIZE, PAGE_WORDS, REGISTERS};
pub use types::{AddFault, Types};

/// Want of memory.
#[derive(Clone, Copy, Debug, PartialEq, Eq)]
pub struct NoMemory;
