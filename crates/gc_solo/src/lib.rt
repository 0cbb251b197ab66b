//! A heap of one thread: words, the bays of its mutators, and who is blocked.
//!
//! `Solo` makes the calls of all mutators, one after the other, and answers each as the graph does. It stands for
//! a history: a legal one, after which its words and bays show the graph's world by a placement, an address for
//! each object that is needed. Each call leaves it standing for that history, the collections that it brought, and
//! its own entry. A new object takes the next words of its maker's current half: a comparison, the stores of its
//! words, and one register. Where the half has no room, a collection is made: a minor one, which copies what is
//! still needed of all halves to the other halves or, at its second survival, to cells of pages; or a full one,
//! which marks what is reachable in pages too and gives back the cells of the rest. It is full where so many pages
//! were given since the last full one that it is due. Where the half has no room behind a minor one, a full one
//! follows, and last a cell is tried. So Full is answered only where a full collection left no place.
//!
//! `heap` has the memory itself and the way in which a call is made; its parts have the fields of objects, the
//! registers, the making of objects, the write barrier, and the steps of a collection, a role a file. `solo` is
//! the public type over it, which keeps as its invariant that it stands for some history.
#![tactic(auto)]

mod heap;
mod solo;
#[cfg(test)]
mod tests;

pub use solo::Solo;
