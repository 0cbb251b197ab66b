//! The making of objects. A new object takes the next words of its maker's current half. Where the half has no room, a
//! collection is made, and the half is tried again: a minor one, unless a full one is due; and where the half still has no room
//! behind a minor one, a full one. Last a cell of the object's class is tried, in which the object is old from the start. It is
//! written whole, its header and zeros behind it, since the words may have been another's.
//!
//! The way through the half is a comparison, the stores of the words, and one register.
ghost use Rattle.std.specs.Prelude.{◌≡◌, ◌<◌, ◌≤◌, ◌+◌, ◌++◌, ℕ, true, false, length};
ghost use Rattle.gc_layout.specs.Sizes.{largest_size};
ghost use Rattle.gc_model.specs.World.{World};
ghost use Rattle.gc_placement.specs.Changes.{WritesFresh};
ghost use Rattle.gc_placement.specs.Placement.{Placement};
ghost use Rattle.gc_placement.specs.Promotion.{HasNoCell};
ghost use Rattle.gc_solo.specs.Allocation.{HasMade, HasMadeBehindFull, HasMadeBehindMinor, IsAllocated, IsMadeOrFull, type_size};
ghost use Rattle.gc_solo.specs.Kept.{bay_at, kept_of, memory_of};
ghost use Rattle.gc_solo.specs.Stands.{IsReadyFor, IsReadyIn};

use crate::heap::Heap;
use gc_layout::{Head, TypeNo};
use gc_model::{Reg, Reply, RunKind};

impl Heap {
    /// Makes an object that a register comes to name: in the mutator's current half, where it fits that. Else a collection is
    /// made first, which is full where that is due.
    pub(crate) fn make_object(&mut self, t: u8, into: Reg, ty: TypeNo) -> Reply
        requires ready { IsReadyIn (kept_of self.old) t }
        requires known { ty.0 < length self.old.types }
        requires room { 2 ≤ self.old.book.room }
        ensures allocated { (placement : Placement) (world : World) → IsReadyFor (kept_of self.old) placement world t
            → IsAllocated (kept_of self.old) (kept_of self.new) placement world t into ty.0 result }
        ensures rest { self.new
            ≡ record self.old { words = self.new.words; bays = self.new.bays; book = self.new.book; due = self.new.due } }
    {
        if self.make_in_half(t, into, ty) {
            return Reply::Done;
        }
        if self.due {
            self.make_behind_full(t, into, ty)
        } else {
            self.make_behind_minor(t, into, ty)
        }
    }

    /// Makes a minor collection, and then an object in the mutator's current half. Where that has no room, a full collection
    /// is made too.
    fn make_behind_minor(&mut self, t: u8, into: Reg, ty: TypeNo) -> Reply
        requires ready { IsReadyIn (kept_of self.old) t }
        requires known { ty.0 < length self.old.types }
        requires room { 2 ≤ self.old.book.room }
        ensures made { (placement : Placement) (world : World) → IsReadyFor (kept_of self.old) placement world t
            → HasMadeBehindMinor (kept_of self.old) (kept_of self.new) placement world t into ty.0 result }
        ensures rest { self.new
            ≡ record self.old { words = self.new.words; bays = self.new.bays; book = self.new.book; due = self.new.due } }
    {
        self.collect(RunKind::Minor);
        if self.make_in_half(t, into, ty) {
            return Reply::Done;
        }
        self.make_behind_full(t, into, ty)
    }

    /// Makes a full collection, and then an object where there is a place for it. Full where there is none.
    fn make_behind_full(&mut self, t: u8, into: Reg, ty: TypeNo) -> Reply
        requires ready { IsReadyIn (kept_of self.old) t }
        requires known { ty.0 < length self.old.types }
        requires room { 1 ≤ self.old.book.room }
        ensures made { (placement : Placement) (world : World) → IsReadyFor (kept_of self.old) placement world t
            → HasMadeBehindFull (kept_of self.old) (kept_of self.new) placement world t into ty.0 result }
        ensures rest { self.new
            ≡ record self.old { words = self.new.words; bays = self.new.bays; book = self.new.book; due = self.new.due } }
    {
        self.collect(RunKind::Full);
        self.make_anywhere(t, into, ty)
    }

    /// Makes an object in the mutator's current half or else in a cell. Full where neither has room, and then nothing
    /// changes.
    fn make_anywhere(&mut self, t: u8, into: Reg, ty: TypeNo) -> Reply
        requires ready { IsReadyIn (kept_of self.old) t }
        requires known { ty.0 < length self.old.types }
        ensures made { (placement : Placement) (world : World) → IsReadyFor (kept_of self.old) placement world t
            → IsMadeOrFull (kept_of self.old) (kept_of self.new) placement world t into ty.0 result }
        ensures rest { self.new ≡ record self.old { words = self.new.words; bays = self.new.bays } }
    {
        if self.make_in_half(t, into, ty) {
            return Reply::Done;
        }
        if self.make_in_cell(t, into, ty) {
            return Reply::Done;
        }
        Reply::Full
    }

    /// Makes an object in the mutator's current half, where that has room for it. Else nothing changes.
    fn make_in_half(&mut self, t: u8, into: Reg, ty: TypeNo) -> bool
        requires ready { IsReadyIn (kept_of self.old) t }
        requires known { ty.0 < length self.old.types }
        ensures made { (placement : Placement) (world : World) → IsReadyFor (kept_of self.old) placement world t → result ≡ true
            → HasMade (kept_of self.old) (kept_of self.new) placement world t into ty.0 }
        ensures fits { result ≡ true → (bay_at self.old.bays.items t).used + type_size (kept_of self.old) ty.0 ≤ self.old.places.nursery }
        ensures full { result ≡ false → self.old.places.nursery < (bay_at self.old.bays.items t).used + type_size (kept_of self.old) ty.0 }
        ensures unchanged { result ≡ false → kept_of self.new ≡ kept_of self.old }
        ensures rest { self.new ≡ record self.old { words = self.new.words; bays = self.new.bays } }
    {
        let size = self.types.shape(ty).unwrap().size();
        let bay = &mut self.bays[usize::from(t)];
        let Some(address) = bay.bump(size) else {
            return false;
        };
        bay.set_reg(into.index(), address);
        self.write_fresh(address, size, ty, false);
        true
    }

    /// Makes an object in a cell of the mutator's pages, where one of its class is free or a page has no class. Else
    /// nothing changes.
    fn make_in_cell(&mut self, t: u8, into: Reg, ty: TypeNo) -> bool
        requires ready { IsReadyIn (kept_of self.old) t }
        requires known { ty.0 < length self.old.types }
        ensures made { (placement : Placement) (world : World) → IsReadyFor (kept_of self.old) placement world t → result ≡ true
            → HasMade (kept_of self.old) (kept_of self.new) placement world t into ty.0 }
        ensures full { result ≡ false → HasNoCell (bay_at self.old.bays.items t) (type_size (kept_of self.old) ty.0) }
        ensures unchanged { result ≡ false → kept_of self.new ≡ kept_of self.old }
        ensures rest { self.new ≡ record self.old { words = self.new.words; bays = self.new.bays } }
    {
        let size = self.types.shape(ty).unwrap().size();
        let bay = &mut self.bays[usize::from(t)];
        let Some(address) = bay.cell(size) else {
            return false;
        };
        bay.set_reg(into.index(), address);
        self.write_fresh(address, size, ty, true);
        true
    }

    /// Writes a fresh object of so many words, old where it lies in a page: its header, and zeros behind it.
    pub(crate) fn write_fresh(&mut self, address: u64, size: u64, ty: TypeNo, in_page: bool)
        requires some { 1 ≤ size }
        requires within { address + size ≤ length self.old.words.items }
        ensures written { WritesFresh (memory_of (kept_of self.old)).word (memory_of (kept_of self.new)).word address size ty in_page }
        ensures count { length self.new.words.items ≡ length self.old.words.items }
        ensures rest { self.new ≡ record self.old { words = self.new.words } }
    {
        let start = address as usize;
        self.words[start] = Head::fresh(ty, in_page).word();
        self.words[start + 1..start + size as usize].fill(0);
    }
}
