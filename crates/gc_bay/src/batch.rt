//! A batch: the addresses of slots that are gathered for one owner before they are posted.

ghost use Rattle.std.specs.Prelude.{◌≡◌, ◌<◌, ◌≤◌, ◌↔◌, [], ◌∷◌, ◌++◌, length, slice_get, IsNone, IsTrue};
ghost use Rattle.gc_bay.specs.Room.{batch_room};

use arrayvec::ArrayVec;
use std::marker::Model;

/// The most addresses of a batch.
const BATCH_ROOM: usize = 62;

/// The addresses of at most 62 slots, in the order in which they came.
#[derive(Debug, Drop)]
pub struct Batch {
    slots: ArrayVec<u64, BATCH_ROOM>,
}

impl Model for Batch {
    ghost use Rattle.std.specs.Prelude.{◌≤◌, ℕ, List, length};
    ghost use Rattle.gc_bay.specs.Room.{batch_room};

    ghost Value = { List ℕ };

    ghost view = { λ b. b.slots.items };

    ghost invariant = { λ b. length b.slots.items ≤ batch_room };
}

impl Batch {
    /// A batch without addresses.
    pub(crate) fn empty() -> Batch
        ensures { result ≡ [] }
    {
        Batch {
            slots: ArrayVec::new(),
        }
    }

    /// Appends the address of a slot. The batch isn't full.
    pub fn push(&mut self, a: u64)
        requires { length self.old < batch_room }
        ensures { self.new ≡ self.old ++ a ∷ [] }
    {
        self.slots.push(a);
    }

    /// How many addresses there are, at most 62.
    pub fn len(&self) -> usize
        ensures len { result ≡ length self.now }
        ensures most { result ≤ batch_room }
    {
        self.slots.len()
    }

    /// Whether there is no address.
    pub fn is_empty(&self) -> bool
        ensures { IsTrue result ↔ (self.now ≡ []) }
    {
        self.slots.is_empty()
    }

    /// Whether there are 62 addresses.
    pub fn is_full(&self) -> bool
        ensures { IsTrue result ↔ (length self.now ≡ batch_room) }
    {
        self.slots.len() == BATCH_ROOM
    }

    /// The address at an index. None exactly where the index isn't below the length.
    pub fn at(&self, i: usize) -> Option<u64>
        ensures address { result ≡ slice_get self.now i }
        ensures none { IsNone result ↔ (length self.now ≤ i) }
    {
        self.slots.get(i).copied()
    }

    /// Takes all addresses out.
    pub fn clear(&mut self)
        ensures { self.new ≡ [] }
    {
        self.slots.clear();
    }
}
