//! The remembered list and the grey list.

ghost use Rattle.std.specs.List.{swap_remove};
ghost use Rattle.std.specs.Prelude.{◌≡◌, ◌-◌, ◌<◌, ◌≤◌, ◌↔◌, [], ◌∷◌, ◌++◌, length, Contains, IsNone, IfNone, IfSome, slice_get};
ghost use Rattle.gc_bay.specs.Room.{grey_room, remembered_room};

use crate::Bay;

impl Bay {
    ghost use Rattle.gc_bay.specs.Bay.{IsBay};

    /// Puts the address of an old object on the remembered list. It isn't there, and there is room.
    pub fn remember(&mut self, a: u64)
        requires absent { ¬ Contains self.old.remembered a }
        requires room { length self.old.remembered < remembered_room self.old.layout }
        ensures list { self.new ≡ record self.old { remembered = self.old.remembered ++ a ∷ [] } }
        ensures bay { IsBay self.new }
    {
        self.remembered.push_reserved(a);
    }

    /// How many addresses the remembered list has.
    pub fn remembered_count(&self) -> usize
        ensures count { result ≡ length self.now.remembered }
        ensures bay { IsBay self.now }
    {
        self.remembered.len()
    }

    /// The address at an index of the remembered list. None exactly where the index isn't below its length.
    pub fn remembered(&self, i: usize) -> Option<u64>
        ensures address { result ≡ slice_get self.now.remembered i }
        ensures none { IsNone result ↔ (length self.now.remembered ≤ i) }
    {
        self.remembered.get(i).copied()
    }

    /// Takes the address at an index off the remembered list; the last one comes in its place.
    pub fn drop_remembered(&mut self, i: usize)
        requires { i < length self.old.remembered }
        ensures list { self.new ≡ record self.old { remembered = swap_remove self.old.remembered i 0 } }
        ensures bay { IsBay self.new }
    {
        self.remembered.swap_remove(i);
    }

    /// Takes all addresses off the remembered list.
    pub fn forget_all(&mut self)
        ensures list { self.new ≡ record self.old { remembered = [] } }
        ensures bay { IsBay self.new }
    {
        self.remembered.clear();
    }

    /// Puts the address of an object on the grey list. It isn't there, and there is room.
    pub fn grey(&mut self, a: u64)
        requires absent { ¬ Contains self.old.grey a }
        requires room { length self.old.grey < grey_room self.old.layout }
        ensures list { self.new ≡ record self.old { grey = self.old.grey ++ a ∷ [] } }
        ensures bay { IsBay self.new }
    {
        self.grey.push_reserved(a);
    }

    /// Takes the last address off the grey list. None exactly where the list is empty.
    pub fn next_grey(&mut self) -> Option<u64>
        ensures address { result ≡ slice_get self.old.grey (length self.old.grey - 1) }
        ensures none { IsNone result ↔ (self.old.grey ≡ []) }
        ensures unchanged { IfNone result (self.new ≡ self.old) }
        ensures last { IfSome result (λ a. self.old.grey ≡ self.new.grey ++ a ∷ []) }
        ensures rest { self.new ≡ record self.old { grey = self.new.grey } }
        ensures bay { IsBay self.new }
    {
        self.grey.pop()
    }

    /// The address that `next_grey` would take. Nothing changes.
    pub fn peek_grey(&self) -> Option<u64>
        ensures address { result ≡ slice_get self.now.grey (length self.now.grey - 1) }
        ensures none { IsNone result ↔ (self.now.grey ≡ []) }
    {
        self.grey.last().copied()
    }
}
