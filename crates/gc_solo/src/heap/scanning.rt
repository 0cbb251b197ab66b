//! Scanning. Each slot of a grey object is treated: what it names is kept, and it gets the address at which it is kept.
//! The grey objects are taken one by one until none is left. Since each copy takes words of a half, or stands on a remembered
//! list as what is marked does, and there are so many of these, this ends.
ghost use Rattle.std.specs.Prelude.{◌≡◌, ◌≤◌, ◌<◌, ◌+◌, ℕ, [], None, IfNone, IfSome};
ghost use Rattle.gc_placement.specs.Holders.{Done};
ghost use Rattle.gc_placement.specs.Placement.{Placement};
ghost use Rattle.gc_solo.specs.Collecting.{Beginning, HasGoneOn, IsCollecting, IsToTreat, IsUnderWay, Stage, with_in_hand, work_left};
ghost use Rattle.gc_solo.specs.Kept.{bay_at, kept_of};

use crate::heap::Heap;
use gc_layout::FIRST_SLOT;
use gc_model::RunKind;

impl Heap {
    /// Treats each slot of the object at an address: the objects that they name are kept, and they get their addresses.
    pub(crate) fn scan(&mut self, kind: RunKind, address: u64)
        requires collecting { (start : Beginning) × (after : Placement) × (done : Done) × (stage : Stage) × (number : ℕ)
            × (start.kind ≡ kind) × IsCollecting (kept_of self.old) start after done (with_in_hand stage number 0)
            × IsToTreat start after stage number address }
        ensures scanned { (start : Beginning) (after : Placement) (done : Done) (stage : Stage) (number : ℕ) → start.kind ≡ kind
            → stage.in_hand ≡ None → IsCollecting (kept_of self.old) start after done (with_in_hand stage number 0)
            → IsToTreat start after stage number address
            → HasGoneOn (kept_of self.new) start after done stage }
        ensures ends { work_left self.new.bays.items ≤ work_left self.old.bays.items }
        ensures rest { self.new ≡ record self.old { words = self.new.words; bays = self.new.bays } }
    {
        let slots = self.shape_of(address).slots;
        for place in 0..u64::from(slots) {
            let slot = address + FIRST_SLOT + place;
            let kept = self.forward(kind, self.word(slot));
            self.store(slot, kept);
        }
    }

    /// Scans grey objects until there is none.
    pub(crate) fn scan_grey(&mut self, kind: RunKind)
        requires collecting { IsUnderWay kind (kept_of self.old) }
        ensures scanned { (start : Beginning) (after : Placement) (done : Done) (stage : Stage) → start.kind ≡ kind
            → stage.in_hand ≡ None → IsCollecting (kept_of self.old) start after done stage
            → HasGoneOn (kept_of self.new) start after done stage }
        ensures none { (t : ℕ) → t < self.new.places.mutators → (bay_at self.new.bays.items t).grey ≡ [] }
        ensures rest { self.new ≡ record self.old { words = self.new.words; bays = self.new.bays } }
    {
        while let Some(address) = self.next_grey(kind) {
            self.scan(kind, address);
        }
    }

    /// Takes a grey object: the last one on the first list that has one. None exactly where no list has any.
    fn next_grey(&mut self, kind: RunKind) -> Option<u64>
        requires collecting { IsUnderWay kind (kept_of self.old) }
        ensures none { IfNone result ((t : ℕ) → t < self.new.places.mutators → (bay_at self.new.bays.items t).grey ≡ []) }
        ensures unchanged { IfNone result (kept_of self.new ≡ kept_of self.old) }
        ensures taken { IfSome result (λ address. (start : Beginning) (after : Placement) (done : Done) (stage : Stage)
            → start.kind ≡ kind → stage.in_hand ≡ None → IsCollecting (kept_of self.old) start after done stage
            → (number : ℕ) × IsCollecting (kept_of self.new) start after done (with_in_hand stage number 0)
            × IsToTreat start after stage number address) }
        ensures ends { IfSome result (λ address. work_left self.new.bays.items < work_left self.old.bays.items) }
        ensures rest { self.new ≡ record self.old { bays = self.new.bays } }
    {
        for t in 0..self.places.mutators() {
            if let Some(address) = self.bays[usize::from(t)].next_grey() {
                return Some(address);
            }
        }
        None
    }
}
