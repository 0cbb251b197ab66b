//! The table of types.

ghost use Rattle.std.specs.Prelude.{◌≡◌, ◌<◌, ◌≤◌, ◌↔◌, [], ◌∷◌, ◌++◌, length, slice_get, IfOk, IfSome, IsNone, OnErr, IsErrOf};
ghost use Rattle.gc_layout.specs.Shape.{size_of, common_shape};
ghost use Rattle.gc_layout.specs.Sizes.{largest_size};
ghost use Rattle.gc_layout.specs.Types.{AreTypes};

use crate::{LARGEST_SIZE, NoMemory, Shape, TypeNo};
use std::alloc::Global;
use std::marker::Model;

/// The most types that a table holds, the common object's among them.
const MOST_TYPES: usize = 256;

/// Why a type was refused.
#[derive(Clone, Copy, Debug, PartialEq, Eq)]
pub enum AddFault {
    /// An object of it would have more than 64 words.
    TooWide,
    /// 256 types are held.
    TooMany,
}

/// The table of types: their shapes by type number, each of at most 64 words. Type 0 is the common object's.
#[derive(Debug, Drop)]
pub struct Types {
    shapes: Vec<Shape>,
}

impl Model for Types {
    ghost use Rattle.std.specs.Prelude.{◌≤◌, List, vec_capacity};
    ghost use Rattle.gc_layout.specs.declared.shape.Shape.{Shape};
    ghost use Rattle.gc_layout.specs.Types.{AreTypes};

    ghost Value = { List Shape };

    ghost view = { λ t. t.shapes.items };

    ghost invariant = { λ t. (256 ≤ vec_capacity t.shapes) × AreTypes t.shapes.items };
}

impl Types {
    /// The table with the common object's type alone, 16 slots and no numbers, and room for 256 types.
    pub fn make(alloc: Global) -> Result<Types, NoMemory>
        ensures { IfOk result (λ types. types ≡ common_shape ∷ []) }
    {
        let Ok(mut shapes) = Vec::with_capacity(alloc, MOST_TYPES) else {
            return Err(NoMemory);
        };
        shapes.push_reserved(Shape::COMMON);
        Ok(Types { shapes })
    }

    /// Appends a type. It takes no memory.
    pub fn add(&mut self, s: Shape) -> Result<TypeNo, AddFault>
        ensures added { IfOk result (λ ty. (ty.0 ≡ length self.old) × (self.new ≡ self.old ++ s ∷ [])) }
        ensures wide { IsErrOf result AddFault.TooWide ↔ (largest_size < size_of s) }
        ensures many { IsErrOf result AddFault.TooMany ↔ ((size_of s ≤ largest_size) × (length self.old ≡ 256)) }
        ensures err { OnErr result (self.new ≡ self.old) }
    {
        if s.size() > LARGEST_SIZE {
            return Err(AddFault::TooWide);
        }
        let count = self.shapes.len();
        if count == MOST_TYPES {
            return Err(AddFault::TooMany);
        }
        self.shapes.push_reserved(s);
        Ok(TypeNo(count as u8))
    }

    /// The shape of a type. None exactly where there is no type of that number.
    pub fn shape(&self, ty: TypeNo) -> Option<Shape>
        ensures value { result ≡ slice_get self.now ty.0 }
        ensures none { IsNone result ↔ (length self.now ≤ ty.0) }
        ensures size { IfSome result (λ shape. size_of shape ≤ largest_size) }
    {
        self.shapes.get(usize::from(ty.0)).copied()
    }

    /// How many types there are, 1 to 256.
    pub fn count(&self) -> u16
        ensures count { result ≡ length self.now }
        ensures types { AreTypes self.now }
    {
        self.shapes.len() as u16
    }

    /// The shapes of all types, by type number.
    pub fn as_slice(&self) -> &[Shape]
        ensures shapes { result.now ≡ self.now }
        ensures types { AreTypes self.now }
    {
        self.shapes.as_slice()
    }
}
