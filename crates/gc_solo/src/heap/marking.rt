//! Marking. A full collection keeps an object in a page where it is: it sets the mark in its header when it first meets it,
//! with the bit remembered, puts it on its maker's remembered list and, where it has slots, on its grey list, and counts it
//! in its maker's tally. Whoever meets the object later finds the mark. The lists were emptied before, so at the end they have
//! exactly the objects in pages that are kept.
ghost use Rattle.std.specs.Prelude.{◌≡◌, ◌<◌, ◌+◌, ℕ};
ghost use Rattle.gc_placement.specs.Holders.{Done};
ghost use Rattle.gc_placement.specs.Placement.{Placement};
ghost use Rattle.gc_solo.specs.Collecting.{Beginning, HasMarked, IsCollecting, IsToMark, Stage, work_left};
ghost use Rattle.gc_solo.specs.Kept.{kept_of};

use crate::heap::Heap;
use gc_layout::Head;

impl Heap {
    /// Marks the object in a page whose header has this address.
    pub(crate) fn mark(&mut self, address: u64)
        requires collecting { (start : Beginning) × (after : Placement) × (done : Done) × (stage : Stage) × (number : ℕ)
            × IsCollecting (kept_of self.old) start after done stage × IsToMark (kept_of self.old) start after number address }
        ensures marked { (start : Beginning) (after : Placement) (done : Done) (stage : Stage) (number : ℕ)
            → IsCollecting (kept_of self.old) start after done stage → IsToMark (kept_of self.old) start after number address
            → HasMarked (kept_of self.new) start after done stage number }
        ensures ends { work_left self.new.bays.items < work_left self.old.bays.items }
        ensures rest { self.new ≡ record self.old { words = self.new.words; bays = self.new.bays } }
    {
        let head = self.head(address);
        let shape = self.types.shape(head.ty).unwrap();
        let owner = self.places.owner(address).unwrap();
        let marked = Head {
            remembered: true,
            marked: true,
            ..head
        };
        self.store(address, marked.word());
        let bay = &mut self.bays[usize::from(owner)];
        bay.remember(address);
        if shape.slots > 0 {
            bay.grey(address);
        }
        bay.count_kept(shape.size());
    }
}
