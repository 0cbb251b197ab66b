//! Sweeping. When a full collection has kept all that is reachable, the used cells of all pages are looked at in order: where
//! the object in one isn't marked, nothing reaches it, and the cell is given back; else the mark is cleared. Then no
//! object is marked, and each used cell holds an object that is reachable. The pages that a mutator was given so far
//! don't count any more.
ghost use Rattle.std.specs.Prelude.{◌≡◌, ◌<◌, ◌+◌, ◌*◌, ℕ, Some};
ghost use Rattle.gc_gen2.specs.Cells.{IsUsed, class_at};
ghost use Rattle.gc_placement.specs.Placement.{Placement};
ghost use Rattle.gc_solo.specs.Collecting.{Beginning, HasTraced, HasTracedAll, IsSwept, IsSweptIn};
ghost use Rattle.gc_solo.specs.Kept.{bay_at, kept_of};

use crate::heap::Heap;
use gc_layout::{Head, PAGE_WORDS};

impl Heap {
    /// Sweeps the pages of all mutators.
    pub(crate) fn sweep(&mut self)
        requires traced { (start : Beginning) × HasTracedAll (kept_of self.old) start }
        ensures swept { (start : Beginning) → HasTracedAll (kept_of self.old) start
            → (after : Placement) × HasTraced (kept_of self.new) start after }
        ensures given { (t : ℕ) → t < self.new.places.mutators → (bay_at self.new.bays.items t).given ≡ 0 }
        ensures rest { self.new ≡ record self.old { words = self.new.words; bays = self.new.bays } }
    {
        for t in 0..self.places.mutators() {
            for page in 0..self.places.pages() {
                self.sweep_page(t, page);
            }
            self.bays[usize::from(t)].reset_given();
        }
    }

    /// Sweeps a page of a mutator.
    fn sweep_page(&mut self, t: u8, page: u16)
        requires swept { IsSweptIn (kept_of self.old) t (page * 1024) }
        requires there { t < self.old.places.mutators }
        requires within { page < self.old.places.pages }
        ensures swept { (start : Beginning) (after : Placement) → IsSwept (kept_of self.old) start after t (page * 1024)
            → IsSwept (kept_of self.new) start after t ((page + 1) * 1024) }
        ensures given { (u : ℕ) → (bay_at self.new.bays.items u).given ≡ (bay_at self.old.bays.items u).given }
        ensures rest { self.new ≡ record self.old { words = self.new.words; bays = self.new.bays } }
    {
        let Some(class) = self.bays[usize::from(t)].gen2().page_class(page) else {
            return;
        };
        let class = u64::from(class);
        for number in 0..PAGE_WORDS / class {
            let offset = u64::from(page) * PAGE_WORDS + number * class;
            if self.bays[usize::from(t)].gen2().is_used(offset) {
                self.sweep_cell(t, offset);
            }
        }
    }

    /// Looks at a used cell: gives it back where its object isn't marked, and else clears the mark.
    fn sweep_cell(&mut self, t: u8, offset: u64)
        requires swept { IsSweptIn (kept_of self.old) t offset }
        requires there { t < self.old.places.mutators }
        requires used { IsUsed (bay_at self.old.bays.items t).pages offset }
        ensures swept { (start : Beginning) (after : Placement) → IsSwept (kept_of self.old) start after t offset
            → IsSwept (kept_of self.new) start after t (offset + 1) }
        ensures classes { (page : ℕ)
            → class_at (bay_at self.new.bays.items t).pages page ≡ class_at (bay_at self.old.bays.items t).pages page }
        ensures given { (u : ℕ) → (bay_at self.new.bays.items u).given ≡ (bay_at self.old.bays.items u).given }
        ensures rest { self.new ≡ record self.old { words = self.new.words; bays = self.new.bays } }
    {
        let address = self.places.cell_address(t, offset);
        let head = self.head(address);
        if head.marked {
            let unmarked = Head {
                marked: false,
                ..head
            };
            self.store(address, unmarked.word());
        } else {
            self.bays[usize::from(t)].free(address);
        }
    }
}
