//! Tidying. After a collection an object stays remembered exactly where one of its slots names an object in a half; else
//! its bit is cleared, and it leaves its list.
ghost use Rattle.std.specs.Prelude.{◌≡◌, ◌<◌, ◌+◌, ℕ, true, false, Some};
ghost use Rattle.gc_placement.specs.Changes.{DropsFromList};
ghost use Rattle.gc_placement.specs.Extents.{IsInAPage};
ghost use Rattle.gc_placement.specs.Tidying.{HoldsNameOfYoung, OnlyYoungAreRemembered};
ghost use Rattle.gc_placement.specs.Placement.{Placement};
ghost use Rattle.gc_placement.specs.Remembered.{IsListed, NamesYoung};
ghost use Rattle.gc_solo.specs.Collecting.{Beginning, HasTraced, IsTidyTo, IsTraced};
ghost use Rattle.gc_solo.specs.Kept.{bay_at, kept_of, memory_of};

use crate::heap::Heap;
use gc_layout::{FIRST_SLOT, Head};

impl Heap {
    /// Goes through all remembered lists: what names no object in a half is forgotten.
    pub(crate) fn tidy(&mut self)
        requires traced { IsTraced (kept_of self.old) }
        ensures traced { (start : Beginning) (after : Placement) → HasTraced (kept_of self.old) start after
            → HasTraced (kept_of self.new) start after }
        ensures exact { (start : Beginning) (after : Placement) → HasTraced (kept_of self.old) start after
            → OnlyYoungAreRemembered (memory_of (kept_of self.new)) after start.world }
        ensures given { (u : ℕ) → (bay_at self.new.bays.items u).given ≡ (bay_at self.old.bays.items u).given }
        ensures rest { self.new ≡ record self.old { words = self.new.words; bays = self.new.bays } }
    {
        for t in 0..self.places.mutators() {
            self.tidy_list(t);
        }
    }

    /// Goes through the remembered list of a mutator.
    fn tidy_list(&mut self, t: u8)
        requires traced { IsTraced (kept_of self.old) }
        requires there { t < self.old.places.mutators }
        ensures traced { (start : Beginning) (after : Placement) → HasTraced (kept_of self.old) start after
            → HasTraced (kept_of self.new) start after }
        ensures tidied { (start : Beginning) (after : Placement) → HasTraced (kept_of self.old) start after
            → IsTidyTo (kept_of self.old) start after t 0 → IsTidyTo (kept_of self.new) start after (t + 1) 0 }
        ensures given { (u : ℕ) → (bay_at self.new.bays.items u).given ≡ (bay_at self.old.bays.items u).given }
        ensures rest { self.new ≡ record self.old { words = self.new.words; bays = self.new.bays } }
    {
        let mut index = 0;
        while let Some(address) = self.bays[usize::from(t)].remembered(index) {
            if self.names_young(address) {
                index += 1;
            } else {
                self.forget(t, index, address);
            }
        }
    }

    /// Whether a slot of the object in a page at an address names an object in a half.
    fn names_young(&self, address: u64) -> bool
        requires traced { (start : Beginning) × (after : Placement) × (number : ℕ) × HasTraced (kept_of self.now) start after
            × (after number ≡ Some address) }
        ensures young { (start : Beginning) (after : Placement) (number : ℕ) → HasTraced (kept_of self.now) start after
            → after number ≡ Some address → IsInAPage self.now.places address → result ≡ true
            → HoldsNameOfYoung self.now.places after start.world address }
        ensures none { (start : Beginning) (after : Placement) (number place : ℕ) → HasTraced (kept_of self.now) start after
            → after number ≡ Some address → result ≡ false → ¬ NamesYoung self.now.places after start.world number place }
    {
        let first = address + FIRST_SLOT;
        for place in 0..u64::from(self.shape_of(address).slots) {
            let named = self.word(first + place);
            if named != 0 && !self.head(named).old {
                return true;
            }
        }
        false
    }

    /// Takes the object at an address off a remembered list, and clears its bit.
    fn forget(&mut self, t: u8, index: usize, address: u64)
        requires traced { (start : Beginning) × (after : Placement) × (number : ℕ) × HasTraced (kept_of self.old) start after
            × (after number ≡ Some address)
            × IsListed self.old.places.mutators (bay_at self.old.bays.items) address t index
            × ((place : ℕ) → ¬ NamesYoung self.old.places after start.world number place) }
        ensures traced { (start : Beginning) (after : Placement) (number : ℕ) → HasTraced (kept_of self.old) start after
            → after number ≡ Some address
            → ((place : ℕ) → ¬ NamesYoung self.old.places after start.world number place)
            → HasTraced (kept_of self.new) start after }
        ensures dropped { DropsFromList self.old.places.mutators (bay_at self.old.bays.items) (bay_at self.new.bays.items) t index }
        ensures given { (u : ℕ) → (bay_at self.new.bays.items u).given ≡ (bay_at self.old.bays.items u).given }
        ensures rest { self.new ≡ record self.old { words = self.new.words; bays = self.new.bays } }
    {
        let head = self.head(address);
        let forgotten = Head {
            remembered: false,
            ..head
        };
        self.store(address, forgotten.word());
        self.bays[usize::from(t)].drop_remembered(index);
    }
}
