//! What objects of a type look like.

ghost use Rattle.std.specs.Prelude.{◌≡◌};
ghost use Rattle.gc_layout.specs.Shape.{size_of, first_number};

use crate::{COMMON_SLOTS, FIRST_SLOT};

/// What objects of a type look like: the numbers of slots and of number fields, 0 to 255 each.
#[derive(Clone, Copy, Debug, PartialEq, Eq)]
pub struct Shape {
    pub slots: u8,
    pub numbers: u8,
}

/// The number of a type, its place in the table of types.
#[derive(Clone, Copy, Debug, PartialEq, Eq)]
pub struct TypeNo(pub u8);

impl Shape {
    /// The common object's: 16 slots and no numbers.
    pub const COMMON: Shape = Shape {
        slots: COMMON_SLOTS,
        numbers: 0,
    };

    /// The size of an object in words: header, forwarding word, slots and numbers.
    pub fn size(self) -> u64
        ensures { result ≡ size_of self }
    {
        self.first_number() + u64::from(self.numbers)
    }

    /// How far the first number stands behind the header, in words; the others follow it.
    pub fn first_number(self) -> u64
        ensures { result ≡ first_number self }
    {
        FIRST_SLOT + u64::from(self.slots)
    }
}
