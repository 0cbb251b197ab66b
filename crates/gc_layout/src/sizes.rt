//! The numbers of the layout by name. All are counts of words but the first two.

/// The registers of a mutator, and the root words of its region.
pub const REGISTERS: u8 = 16;

/// The slots of the common object.
pub const COMMON_SLOTS: u8 = 16;

/// The most words of an object, and the fewest of a semispace half: so each object fits an empty half.
pub const LARGEST_SIZE: u64 = 64;

/// The words of a page.
pub const PAGE_WORDS: u64 = 1024;

/// How far the forwarding word stands behind the header.
pub const FORWARDING_WORD: u64 = 1;

/// How far the first slot stands behind the header.
pub const FIRST_SLOT: u64 = 2;
