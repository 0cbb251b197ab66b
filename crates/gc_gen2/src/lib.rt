//! The second generation's cells: pages of 1024 words, cut into cells of one size class each.
//!
//! An object of the second generation stays where it is, in a cell of its size class: the least multiple of
//! 4 words that holds it, 4 to 64. A page has no class at first. The first cell that finds no room in the
//! pages of its class gives its class to the first page without one, and the page keeps it for good, so the
//! pages with a class are always the first ones. A cell is named by its offset in words: its page * 1024 +
//! its number in the page * its class.
//!
//! Which cell is given is fixed: the free cell of the class with the least offset. To find it without a
//! search, each page has a set of its free cells, four words of bits, and each class has a set of the pages
//! that have a free cell of it, one word of 128 bits. The lowest bit of the one gives the page and that of
//! the other the cell, so to take a cell or to give it back costs a few steps, whatever stands in the pages.
//! How many cells are used, and how many are free in each class, is counted at each of these steps.
//!
//! All memory is allocated when the pages are made. The crate knows nothing of addresses or objects, and
//! stands on nothing.
#![tactic(auto)]

mod class;
mod gen2;
mod page;
#[cfg(test)]
mod tests;

pub use class::class_of;
pub use gen2::Gen2;

/// Want of memory.
#[derive(Clone, Copy, Debug, PartialEq, Eq)]
pub struct NoMemory;
